//! How the formula of places goes on from word to word.

ghost use Rattle.std.specs.Prelude.{◌≡◌, ℕ, ◌+◌, ◌-◌, ◌%◌, ◌<◌, ◌⊎◌, ◌++◌, ◌∷◌, [], List, length};
ghost use Rattle.idaw.specs.Places.{place_of_word, covered};

/// What a word that is added to a list does to the places of bytes, `b` being the size of the blocks.
pub fn words()
    // It moves no byte that the words before it reach.
    ensures stays { (b : ℕ) (words : List ℕ) (word j : ℕ) → 0 < b → j < covered b words → place_of_word b (words ++ word ∷ []) j ≡ place_of_word b words j }
    // The next bytes are its own, to the end of its block.
    ensures next { (b : ℕ) (words : List ℕ) (word i : ℕ) → 0 < b → i < b - word % b → place_of_word b (words ++ word ∷ []) (covered b words + i) ≡ word + i }
    // So many more are reached, where it is the first or begins a block.
    ensures reaches { (b : ℕ) (words : List ℕ) (word : ℕ) → (length words ≡ 0) ⊎ (word % b ≡ 0) → covered b (words ++ word ∷ []) ≡ covered b words + (b - word % b) }
{}
