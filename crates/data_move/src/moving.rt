//! How far the data of a command word is moved.

ghost use Rattle.std.specs.Prelude.{◌≡◌, ◌≢◌, ℕ, ◌+◌, ◌==◌, ◌<◌, ◌≤◌, ◌⊎◌, ◌↔◌, ◌^◌, None, Some, Ok, Err, IfOk, IfErr, OnOk, OnErr, IsOk, IsTrue, false, [], length, slice_index};
ghost use Rattle.idaw.specs.Lists.{block, word_fault};
ghost use Rattle.idaw.specs.Places.{Reach, place_of_byte, places_from, reach_with_word};
ghost use Rattle.data_move.specs.Moving as spec;
ghost use Rattle.data_move.specs.Moving.{IsAt};
ghost use Rattle.data_move.specs.Accesses as access;

use crate::slices::ChunkSlice;
use byteorder::{BigEndian, ByteOrder};
use ccw_codec::Ccw;
use ccw_walk::check::Check;
use chan_model::chunk::CHUNK_BYTES;
use idaw::{ListKind, WordFault, piece};
use std::marker::Model;
use storage_keys::MainStorage;
use storage_keys::law::{fetched_bytes, put_bytes};

/// How far the data of a command word that took control is moved.
///
/// Its bytes lie side by side from the address on, or in the blocks that a list of words names. Each
/// word is fetched once, when the piece of storage before it is used up.
#[derive(Clone, Copy)]
pub struct Move {
    kind: ListKind,
    ccw: Ccw,
    skipped: bool,
    done: u16,
    words: u16,
    piece: u32,
    left: u16,
}

impl Model for Move {
    ghost use Rattle.data_move.specs.Moving.{Moving, uses_list};
    ghost use Rattle.std.specs.Prelude.{◌≡◌, ℕ, ◌+◌, ◌<◌, ◌≤◌, ◌^◌, false};

    ghost Value = { Moving };

    ghost view = { λ m. record { kind = m.kind; ccw = m.ccw; skipped = m.skipped; done = m.done; words = m.words; piece = m.piece; left = m.left } };

    ghost inverse = { λ m. record { kind = m.kind; ccw = m.ccw; skipped = m.skipped; done = m.done; words = m.words; piece = m.piece; left = m.left } };

    ghost invariant = { λ m. (m.ccw.count < 2 ^ 16) × (m.done + m.left ≤ m.ccw.count) × (m.words ≤ m.done + m.left) × (m.piece + m.left < 2 ^ 32) × (uses_list (record { kind = m.kind; ccw = m.ccw; skipped = m.skipped; done = m.done; words = m.words; piece = m.piece; left = m.left }) ≡ false → m.done + m.left ≡ m.ccw.count) };
}

impl Move {
    /// Nothing is moved yet. `skipped` says that the bytes are not to be stored, as SKIP asks of what
    /// is read; they then need no list.
    pub fn begin(kind: ListKind, ccw: Ccw, skipped: bool) -> Self
        ensures begun { result ≡ spec.moving_begun kind ccw skipped }
        ensures starts { IsAt (record { ccw = ccw; skipped = skipped; words = [] }) result }
    {
        Move {
            kind,
            ccw,
            skipped,
            done: 0,
            words: 0,
            piece: ccw.address,
            left: at_once(ccw, skipped),
        }
    }

    /// The command word.
    pub fn ccw(&self) -> Ccw
        ensures { result ≡ self.now.ccw }
    {
        self.ccw
    }

    /// How many words of the list were fetched.
    pub fn words(&self) -> u16
        ensures { result ≡ self.now.words }
    {
        self.words
    }

    /// How many bytes of the count are not moved.
    pub fn residual(&self) -> u16
        ensures { result ≡ spec.residual self.now }
    {
        self.ccw.count - self.done
    }

    /// Whether the length is incorrect as the command ends: some of the count is not moved, or the
    /// device had more.
    pub fn is_incorrect(&self, more: bool) -> bool
        ensures { result ≡ spec.is_incorrect self.now more }
    {
        self.residual() != 0 || more
    }

    /// Where the next byte is. None where it is skipped, or where no byte of the piece is left.
    pub fn place(&self) -> Option<u32>
        ensures { result ≡ spec.byte_place self.now }
    {
        if self.skipped || self.left == 0 {
            None
        } else {
            Some(self.piece)
        }
    }

    /// How many bytes the next chunk has: what is left of the piece, and at most 256.
    pub fn room(&self) -> u16
        ensures room { result ≡ spec.room self.now }
        ensures chunk { result ≤ 256 }
    {
        usize::from(self.left).min(CHUNK_BYTES) as u16
    }

    /// Whether the next bytes can't be moved before a word of the list is fetched.
    pub fn needs_word(&self) -> bool
        ensures needed { result ≡ spec.needs_word self.now }
        ensures within { self.now.done ≤ self.now.ccw.count }
    {
        self.left == 0 && self.done < self.ccw.count
    }

    /// The next piece, which this word of the list names; `size` is how many bytes storage has. A word
    /// with a fault changes nothing.
    pub fn next_piece(&mut self, word: u64, size: u32) -> Result<(), WordFault>
        requires needed { IsTrue (spec.needs_word self.old) }
        requires size { size ≤ 2 ^ 31 }
        ensures allowed { IsOk result ↔ (word_fault self.old.kind (self.old.words == 0) word size ≡ None) }
        ensures refused { IfErr result (λ fault. word_fault self.old.kind (self.old.words == 0) word size ≡ Some fault) }
        ensures after { OnOk result (self.new ≡ spec.with_piece self.old word) }
        ensures kept { OnErr result (self.new ≡ self.old) }
        // Its bytes are the next ones of the formula.
        ensures goes_on { OnOk result ((r : Reach) → IsAt r self.old → IsAt (reach_with_word r word) self.new) }
    {
        let found = piece(
            self.kind,
            self.words == 0,
            word,
            u32::from(self.ccw.count - self.done),
            size,
        )?;
        self.words += 1;
        self.piece = found.address;
        self.left = found.length as u16;
        Ok(())
    }

    /// Fetches the next word of the list, where it is needed, and begins its piece.
    ///
    /// Program check where the list is off its boundary, a byte of the word is not in storage, or the
    /// word has a fault; protection check where the key does not permit the fetch.
    pub fn locate<M: MainStorage>(&mut self, storage: &M, key: u8) -> Result<(), Check>
        ensures located { OnOk result (access.located (M.contents storage.now) key self.old ≡ Ok self.new) }
        ensures refused { IfErr result (λ check. access.located (M.contents storage.now) key self.old ≡ Err check) }
        ensures kept { OnErr result (self.new ≡ self.old) }
        ensures ready { OnOk result ((0 < self.new.left) ⊎ (self.new.done ≡ self.new.ccw.count)) }
        ensures goes_on { OnOk result ((r : Reach) → IsAt r self.old → IsAt (access.reach_located (M.contents storage.now) key self.old r) self.new) }
    {
        if !self.needs_word() {
            return Ok(());
        }
        let word = self.fetch_word(storage, key)?;
        match self.next_piece(word, storage.size()) {
            Ok(()) => Ok(()),
            Err(_) => Err(Check::Program),
        }
    }

    /// The bytes of the next chunk, where storage has them. Of skipped bytes there are none.
    ///
    /// Program check where a byte is not in storage, otherwise protection check where the key does not
    /// permit the fetch of each of them.
    pub fn copied<'a, M: MainStorage>(
        &self,
        storage: &'a M,
        key: u8,
    ) -> Result<ChunkSlice<'a>, Check>
        ensures copied { IfOk result (λ chunk. access.copied (M.contents storage.now) key self.now ≡ Ok chunk) }
        ensures refused { IfErr result (λ check. access.copied (M.contents storage.now) key self.now ≡ Err check) }
        ensures whole { IfOk result (λ chunk. self.now.skipped ≡ false → length chunk ≡ spec.room self.now) }
        // They are the bytes at the next places of the formula.
        ensures places { IfOk result (λ chunk. (r : Reach) → IsAt r self.now → chunk ≡ access.bytes_at (M.contents storage.now).bytes (places_from (block self.now.kind) r self.now.done (spec.room self.now))) }
    {
        if self.skipped {
            return Ok(ChunkSlice::empty());
        }
        fetched_bytes();
        match storage.fetch(key, self.piece, usize::from(self.room())) {
            Ok(bytes) => Ok(ChunkSlice::of(bytes)),
            Err(fault) => Err(Check::of(fault)),
        }
    }

    /// Stores bytes at the next places; skipped bytes are not stored.
    ///
    /// Program check where a place is not in storage, otherwise protection check where the key does not
    /// permit the store of each byte. Nothing is then stored.
    pub fn stored<M: MainStorage>(
        &self,
        storage: &mut M,
        key: u8,
        bytes: &[u8],
    ) -> Result<(), Check>
        requires { length bytes.now ≤ self.now.left }
        ensures stored { OnOk result (access.stored_or_skipped (M.contents storage.old) key self.now bytes.now ≡ Ok (M.contents storage.new)) }
        ensures refused { IfErr result (λ check. access.stored_or_skipped (M.contents storage.old) key self.now bytes.now ≡ Err check) }
        ensures kept { OnErr result (M.contents storage.new ≡ M.contents storage.old) }
        // Each byte stands at its place of the formula, and no other byte is changed.
        ensures placed { OnOk result ((r : Reach) → IsAt r self.now → (i place : ℕ) → i < length bytes.now → place_of_byte (block self.now.kind) r (self.now.done + i) ≡ Some place → slice_index (M.contents storage.new).bytes place ≡ slice_index bytes.now i) }
        ensures others { OnOk result ((r : Reach) → IsAt r self.now → (place : ℕ) → ((i : ℕ) → i < length bytes.now → place_of_byte (block self.now.kind) r (self.now.done + i) ≢ Some place) → slice_index (M.contents storage.new).bytes place ≡ slice_index (M.contents storage.old).bytes place) }
        ensures lender { M.lender storage.new ≡ M.lender storage.old }
    {
        if self.skipped {
            return Ok(());
        }
        put_bytes();
        match storage.store(key, self.piece, bytes) {
            Ok(()) => Ok(()),
            Err(fault) => Err(Check::of(fault)),
        }
    }

    /// So many of the next bytes were moved.
    pub fn moved(&mut self, count: u16)
        requires { count ≤ self.old.left }
        ensures after { self.new ≡ spec.moved self.old count }
        ensures goes_on { (r : Reach) → IsAt r self.old → IsAt r self.new }
    {
        self.done += count;
        self.piece += u32::from(count);
        self.left -= count;
    }

    /// The next word of the list as storage has it.
    fn fetch_word<M: MainStorage>(&self, storage: &M, key: u8) -> Result<u64, Check>
        ensures { result ≡ access.word_fetched (M.contents storage.now) key self.now }
    {
        let width = self.kind.width();
        if self.ccw.address % width != 0 {
            return Err(Check::Program);
        }
        let address = self.ccw.address + width * u32::from(self.words);
        match storage.fetch(key, address, width as usize) {
            Ok(bytes) => Ok(BigEndian::read_uint(bytes, width as usize)),
            Err(fault) => Err(Check::of(fault)),
        }
    }
}

/// The bytes that need no word.
fn at_once(ccw: Ccw, skipped: bool) -> u16
    ensures value { result ≡ spec.at_once ccw skipped }
    ensures within { result ≤ ccw.count }
    ensures small { ccw.count < 2 ^ 16 }
{
    if ccw.indirect && !skipped {
        0
    } else {
        ccw.count
    }
}
