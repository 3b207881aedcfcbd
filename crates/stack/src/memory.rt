// What a memory is, whatever its make.
ghost use Rattle.std.specs.Prelude.{◌≡◌, length};
ghost use Rattle.stack.specs.Memory.{Meaning, Piece, Rest, Sound, outside, piece};
ghost use Rattle.stack.specs.Refusals.{Fetched, Stored, judged};

use super::place::Place;
use super::refusal::Refusal;

// A memory of 72 banks with `size` indexes each and 64 bytes at each index. At every place one byte is kept
// and one is shown, not always the same.
pub trait Stack {
    // The size, and what is kept and shown at every place.
    ghost means: { Self → Meaning };

    // What an accepted put, a settle and a pass do exactly; a further stack may leave these open.
    ghost puts: { Self → Piece → Self → Type 0 } = { λ _ _ _. Unit {0} };

    ghost settles: { Self → Self → Type 0 } = { λ _ _. Unit {0} };

    ghost passes: { Self → Self → Type 0 } = { λ _ _. Unit {0} };

    // The size is at most 1,024, and bytes are below 256.
    ghost sound: { (s : Self) → Sound (means s) };

    // The number of indexes in each bank.
    fn size(&self) -> usize
        ensures is_size { result ≡ (means self.now).size };

    // Copies the shown bytes of a piece, as many as the buffer holds.
    fn fetch(&self, at: Place, into: &mut [u8]) -> Result<(), Refusal>
        ensures refuses { result ≡ judged (outside (means self.now).size at.bank at.index at.byte (length into.old)) }
        ensures copies { Fetched result (means self.now).shown at.bank at.index at.byte into.old into.new };

    // Makes the kept bytes of a piece those given.
    fn put(&mut self, at: Place, bytes: &[u8]) -> Result<(), Refusal>
        ensures refuses { result ≡ judged (outside (means self.old).size at.bank at.index at.byte (length bytes.now)) }
        ensures stores { Stored result means puts self.old (piece at.bank at.index at.byte bytes.now) self.new };

    // Puts down what layers hold back.
    fn settle(&mut self)
        ensures keeps { Rest (means self.old) (means self.new) }
        ensures exactly { settles self.old self.new };

    // An interval goes by.
    fn pass(&mut self)
        ensures keeps { Rest (means self.old) (means self.new) }
        ensures exactly { passes self.old self.new };
}
