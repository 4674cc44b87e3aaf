//! Indirect-data-address words (IDAWs): which lists of them there are, and the piece of storage that
//! each word names (SA22-7832, chapter 15).
#![tactic(auto)]

ghost use Rattle.std.specs.Prelude.{◌≡◌, ℕ, ◌+◌, ◌-◌, ◌%◌, ◌<◌, ◌≤◌, ◌^◌, ◌↔◌, ◌++◌, ◌∷◌, [], List, None, Some, IfOk, IfErr, IsOk, min};
ghost use Rattle.idaw.specs.Lists as lists;
ghost use Rattle.idaw.specs.Places.{place_of_word, covered};

pub mod law;

use orb_block::Orb;

/// Which words a list has, and which blocks they name.
#[derive(Clone, Copy, Debug, PartialEq, Eq)]
pub enum ListKind {
    /// Format 1: words of 4 bytes, which name blocks of 2,048 bytes.
    Short,
    /// Format 2: words of 8 bytes, which name blocks of 4,096 bytes.
    LongByFourK,
    /// Format 2: words of 8 bytes, which name blocks of 2,048 bytes.
    LongByTwoK,
}

/// What is wrong with a word of a list: a program check.
#[derive(Clone, Copy, Debug, PartialEq, Eq)]
pub enum WordFault {
    /// Bit 0 of a word of format 1 is one.
    LeftmostBit,
    /// A word that is not the first of its list does not begin a block.
    OffBlock,
    /// A word of format 2 names an address outside storage; all 64 bits count.
    OutsideStorage,
}

/// Bytes of storage that lie side by side.
#[derive(Clone, Copy, Debug, PartialEq, Eq)]
pub struct Span {
    /// The address of the first of them.
    pub address: u32,
    /// How many bytes there are.
    pub length: u32,
}

impl ListKind {
    /// The lists of a program: of format 2 where H is one, by 2K where T is one too. T has no effect
    /// on format 1.
    pub fn of(orb: &Orb) -> ListKind
        ensures { result ≡ lists.kind_of orb.now }
    {
        match (orb.long_addresses, orb.small_blocks) {
            (false, _) => ListKind::Short,
            (true, false) => ListKind::LongByFourK,
            (true, true) => ListKind::LongByTwoK,
        }
    }

    /// How many bytes a block has.
    pub fn block(self) -> u32
        ensures { result ≡ lists.block self }
    {
        match self {
            ListKind::LongByFourK => 4096,
            ListKind::Short | ListKind::LongByTwoK => 2048,
        }
    }

    /// How many bytes a word of the list has. The list begins on a boundary of as many.
    pub fn width(self) -> u32
        ensures { result ≡ lists.width self }
    {
        match self {
            ListKind::Short => 4,
            ListKind::LongByFourK | ListKind::LongByTwoK => 8,
        }
    }
}

/// The piece of storage that a word names: from its address to the end of its block, or as many bytes
/// as are left of the count, where these are fewer. `first` says that the word is the first of its
/// list; `size` is how many bytes storage has. A word of format 1 may name an address outside storage:
/// the access of its bytes finds that.
pub fn piece(
    kind: ListKind,
    first: bool,
    word: u64,
    left: u32,
    size: u32,
) -> Result<Span, WordFault>
    requires { size ≤ 2 ^ 31 }
    ensures allowed { IsOk result ↔ (lists.word_fault kind first word size ≡ None) }
    ensures refused { IfErr result (λ fault. lists.word_fault kind first word size ≡ Some fault) }
    ensures address { IfOk result (λ span. span.address ≡ word) }
    ensures length { IfOk result (λ span. span.length ≡ min (lists.block kind - word % lists.block kind) left) }
    ensures within { IfOk result (λ span. span.address + span.length ≤ 2 ^ 31) }
    // Whatever words came before, the bytes of the piece are the next ones of the formula.
    ensures formula { IfOk result (λ span. (words : List ℕ) (i : ℕ) → i < span.length → place_of_word (lists.block kind) (words ++ word ∷ []) (covered (lists.block kind) words + i) ≡ span.address + i) }
{
    if let Some(fault) = word_fault(kind, first, word, size) {
        return Err(fault);
    }
    let address = word as u32;
    let block = kind.block();
    Ok(Span {
        address,
        length: (block - address % block).min(left),
    })
}

/// The first fault of a word that applies.
fn word_fault(kind: ListKind, first: bool, word: u64, size: u32) -> Option<WordFault>
    ensures { result ≡ lists.word_fault kind first word size }
{
    if kind == ListKind::Short && word >= 0x8000_0000 {
        return Some(WordFault::LeftmostBit);
    }
    if !first && word % u64::from(kind.block()) != 0 {
        return Some(WordFault::OffBlock);
    }
    if kind != ListKind::Short && word >= u64::from(size) {
        return Some(WordFault::OutsideStorage);
    }
    None
}
