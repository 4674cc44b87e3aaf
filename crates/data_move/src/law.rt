//! How what is kept of a command word's data follows the formula of places.

ghost use Rattle.std.specs.Prelude.{◌≡◌, ℕ, ◌+◌, ◌≤◌, ◌++◌, [], Bool, true};
ghost use Rattle.ccw_codec.specs.declared.Ccw.{Ccw};
ghost use Rattle.idaw.specs.declared.ListKind.{ListKind};
ghost use Rattle.idaw.specs.Lists.{block};
ghost use Rattle.idaw.specs.Places.{Reach, place_of_byte, each_below, reach_with_word};
ghost use Rattle.data_move.specs.Moving.{Moving, moving_begun, with_piece, moved, next_place, uses_list, IsAt, MayFetch};
ghost use Rattle.std.specs.Prelude.{◌≡◌, ℕ, ◌+◌, Bool, List};
ghost use Rattle.storage_keys.specs.Storage.{Contents};
ghost use Rattle.data_move.specs.declared.transfer.Transfer.{Transfer};
ghost use Rattle.data_move.specs.Commands.{first_command, next_command, with_room, begun_with_room};
ghost use Rattle.data_move.specs.ToDevice.{chunk_absorbed, next_chunk};
ghost use Rattle.data_move.specs.FromDevice.{chunk_stored};
ghost use Rattle.ccw_walk.specs.Positions.{WalkPosition};
ghost use Rattle.data_move.specs.Numbers.{IsSame, IsLaterTransfer, IsNew, IfBegins};

/// The data of a command word, step by step, over the formula of places.
pub fn pieces()
    ensures begins { (kind : ListKind) (ccw : Ccw) (skipped : Bool) → IsAt (record { ccw = ccw; skipped = skipped; words = [] }) (moving_begun kind ccw skipped) }
    ensures word { (r : Reach) (m : Moving) (word : ℕ) → IsAt r m → MayFetch m word → IsAt (reach_with_word r word) (with_piece m word) }
    // A word that is added moves no place of the bytes that are moved.
    ensures stays { (r : Reach) (m : Moving) (word : ℕ) → IsAt r m → uses_list m ≡ true → each_below (place_of_byte (block m.kind) (reach_with_word r word)) m.done ≡ each_below (place_of_byte (block m.kind) r) m.done }
    ensures moved { (r : Reach) (m : Moving) (n : ℕ) → IsAt r m → n ≤ m.left → IsAt r (moved m n) }
    // The next bytes of the piece are at the next places.
    ensures places { (r : Reach) (m : Moving) (n : ℕ) → IsAt r m → n ≤ m.left → each_below (place_of_byte (block m.kind) r) m.done ++ each_below (next_place m) n ≡ each_below (place_of_byte (block m.kind) r) (m.done + n) }
{}

/// Commands of a program are numbered from 1, and the chunks of each too.
pub fn command_numbers()
    ensures first { (storage : Contents) (walk : WalkPosition) → IfBegins (first_command storage walk).outcome (IsNew 1) }
    ensures next { (storage : Contents) (t : Transfer) (modifier : Bool) → IfBegins (next_command storage t modifier).outcome (IsNew (t.command + 1)) }
    ensures begun { (storage : Contents) (t : Transfer) → IsSame t (begun_with_room storage t).transfer }
    ensures room { (storage : Contents) (t : Transfer) → IsSame t (with_room storage t).transfer }
    ensures given { (storage : Contents) (t : Transfer) → IsSame t (next_chunk storage t).transfer }
    ensures absorbed { (storage : Contents) (t : Transfer) (s count : ℕ) → IsLaterTransfer t (chunk_absorbed storage t s count) }
    ensures brought { (storage : Contents) (t : Transfer) (s : ℕ) (bytes : List ℕ) → IsLaterTransfer t (chunk_stored storage t s bytes).transfer }
{}
