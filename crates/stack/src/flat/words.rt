// A memory in words of its own, of 32 bits, low byte first.
ghost use Rattle.std.specs.Prelude.{◌≡◌, ◌+◌, ◌*◌, ◌<◌, ◌≤◌, length, take, drop, slice_index, slice_set, vec_items};
ghost use Rattle.stack.specs.Flat.{replaced};
ghost use Rattle.stack.specs.Words.{bytes_of};

use super::entries::Entries;
use super::{FlatMemory, UNIT, fit};

// 1,152 words for each unit of size.
pub type WordMemory = FlatMemory<Vec<u32>>;

// The byte at a place of the words.
fn byte_at(words: &[u32], at: usize) -> u8
    requires lies { at < 4 * length words.now }
    ensures reads { result ≡ slice_index (bytes_of words.now) at }
{
    let lanes = words[at / 4].to_le_bytes();
    lanes[at % 4]
}

// Writes the byte at a place of the words.
fn set_byte(words: &mut [u32], at: usize, b: u8)
    requires lies { at < 4 * length words.old }
    ensures writes { bytes_of words.new ≡ slice_set (bytes_of words.old) at b }
{
    let i = at / 4;
    let mut lanes = words[i].to_le_bytes();
    lanes[at % 4] = b;
    words[i] = u32::from_le_bytes(lanes);
}

// Copies a part of the words' bytes, one by one, since it may begin and end within a word.
fn copy_out(words: &[u32], at: usize, into: &mut [u8])
    requires lies { at + length into.old ≤ 4 * length words.now }
    ensures copies { into.new ≡ take (length into.old) (drop at (bytes_of words.now)) }
{
    for (k, b) in into.iter_mut().enumerate() {
        *b = byte_at(words, at + k);
    }
}

// Writes a part of the words' bytes, likewise.
fn copy_in(words: &mut [u32], at: usize, bytes: &[u8])
    requires lies { at + length bytes.now ≤ 4 * length words.old }
    ensures writes { bytes_of words.new ≡ replaced (bytes_of words.old) at bytes.now }
{
    for (k, b) in bytes.iter().enumerate() {
        set_byte(words, at + k, *b);
    }
}

impl Entries for Vec<u32> {
    ghost bytes = { λ v. bytes_of (vec_items v) };

    ghost becomes = { λ _ xs w. bytes_of (vec_items w) ≡ xs };

    ghost width = { 4 };

    ghost holds = { λ _ _ _ e. e };

    fn size_for(entries: usize) -> Option<usize> {
        fit(entries, UNIT / 4)
    }

    fn count(&self) -> usize {
        self.len()
    }

    fn read_at(&self, start: usize, into: &mut [u8]) {
        copy_out(self.as_slice(), start, into);
    }

    fn write_at(&mut self, start: usize, part: &[u8]) {
        copy_in(self.as_mut_slice(), start, part);
    }
}
