// A memory in bytes that a host lends.
ghost use Rattle.std.specs.Prelude.{◌≡◌, ◌*◌};
ghost use Rattle.stack.specs.Flat.{Lent, at_least_one, size_of};

use super::entries::Entries;
use super::{FlatMemory, UNIT, fit, read_part, write_part};

// 4,608 bytes for each unit of size.
pub type LentMemory<'a> = FlatMemory<&'a mut [u8]>;

impl Entries for &mut [u8] {
    ghost bytes = { λ s. s.now };

    ghost becomes = { Lent };

    ghost width = { 1 };

    ghost holds = { λ _ _ _ e. e.bytes };

    fn size_for(entries: usize) -> Option<usize>
        ensures fits { result ≡ at_least_one (size_of (1 * entries)) }
    {
        fit(entries, UNIT)
    }

    fn count(&self) -> usize {
        self.len()
    }

    fn read_at(&self, start: usize, into: &mut [u8]) {
        read_part(self, start, into);
    }

    fn write_at(&mut self, start: usize, part: &[u8]) {
        write_part(self, start, part);
    }
}
