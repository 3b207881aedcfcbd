// A memory in bytes of its own.
ghost use Rattle.std.specs.Prelude.{◌≡◌, vec_items};

use super::entries::Entries;
use super::{FlatMemory, UNIT, fit, read_part, write_part};

// 4,608 bytes for each unit of size.
pub type ByteMemory = FlatMemory<Vec<u8>>;

impl Entries for Vec<u8> {
    ghost bytes = { λ v. vec_items v };

    ghost becomes = { λ _ xs w. vec_items w ≡ xs };

    ghost width = { 1 };

    ghost holds = { λ _ _ _ e. e };

    fn size_for(entries: usize) -> Option<usize> {
        fit(entries, UNIT)
    }

    fn count(&self) -> usize {
        self.len()
    }

    fn read_at(&self, start: usize, into: &mut [u8]) {
        read_part(self.as_slice(), start, into);
    }

    fn write_at(&mut self, start: usize, part: &[u8]) {
        write_part(self.as_mut_slice(), start, part);
    }
}
