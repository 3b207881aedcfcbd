// Where a piece of bytes lies in a memory.
ghost use Rattle.std.specs.Prelude.{◌≡◌};
ghost use Rattle.stack.specs.Memory.{outside};
ghost use Rattle.stack.specs.Refusals.{judged};

use super::refusal::Refusal;

// A bank, an index in it and a byte at that index; a memory may have no such place.
#[derive(Clone, Copy, PartialEq, Eq, Debug)]
pub struct Place {
    pub bank: usize,
    pub index: usize,
    pub byte: usize,
}

impl Place {
    // Whether a piece of `count` bytes from here on is empty or lies outside a memory of `size` indexes.
    pub fn is_outside(self, size: usize, count: usize) -> bool
        ensures is_outside { result ≡ outside size self.bank self.index self.byte count }
    {
        self.bank > 71 || self.index >= size || count == 0 || count > 64 || self.byte > 64 - count
    }

    // Refuses such a piece.
    pub fn check(self, size: usize, count: usize) -> Result<(), Refusal>
        ensures refuses_what_lies_outside { result ≡ judged (outside size self.bank self.index self.byte count) }
    {
        if self.is_outside(size, count) {
            return Err(Refusal::PlaceOutOfRange);
        }
        Ok(())
    }
}
