// A further stack, of the least reliable make that the meaning of a memory allows: it shows arbitrary bytes
// wherever what is shown is free.
#![tactic(auto)]

ghost use Rattle.std.specs.Prelude.{◌≡◌, false, length};
ghost use Rattle.stack.specs.Memory.{Put, outside, piece};
ghost use Rattle.unsteady.specs.Noise.{meaning, noisy, noisy_sound};

use stack::flat::bytes::ByteMemory;
use stack::memory::Stack;
use stack::place::Place;
use stack::refusal::Refusal;

// XORs the noise into the bytes.
fn disturb(noise: u8, into: &mut [u8])
    ensures disturbs { into.new ≡ noisy noise into.old }
{
    for byte in into.iter_mut() {
        *byte ^= noise;
    }
}

// Keeps its bytes in one memory and what it shows, under a noise, in another of the same size. What its calls do
// exactly is left open: it shows the meaning of a memory and no more.
#[derive(Drop)]
pub struct Unsteady {
    kept: ByteMemory,
    shown: ByteMemory,
    noise: u8,
}

impl Unsteady {
    // A memory in those bytes; its size is 0 where the two sizes differ.
    pub fn new(kept: ByteMemory, shown: ByteMemory, noise: u8) -> Unsteady
        ensures holds { (result.kept ≡ kept) × (result.shown ≡ shown) × (result.noise ≡ noise) }
    {
        Unsteady { kept, shown, noise }
    }

    // Keeps bytes at a piece's places, and shows any others there.
    fn put_both(&mut self, at: Place, bytes: &[u8], any: &[u8])
        requires lies { outside (meaning self.old).size at.bank at.index at.byte (length bytes.now) ≡ false }
        requires alike { length any.now ≡ length bytes.now }
        ensures stores { Put (meaning self.old) (piece at.bank at.index at.byte bytes.now) (meaning self.new) }
    {
        let _ = self.kept.put(at, bytes);
        let _ = self.shown.put(at, any);
    }

    // The memory of what is kept.
    pub fn into_kept(self) -> ByteMemory
        ensures gives { result ≡ self.kept }
    {
        let Unsteady { kept, .. } = self;
        kept
    }
}

impl Stack for Unsteady {
    ghost means = { meaning };

    ghost sound = { λ s. noisy_sound s.kept.bytes.items s.shown.bytes.items s.noise };

    fn size(&self) -> usize {
        if self.kept.size() == self.shown.size() {
            self.kept.size()
        } else {
            0
        }
    }

    fn fetch(&self, at: Place, into: &mut [u8]) -> Result<(), Refusal> {
        at.check(self.size(), into.len())?;
        let _ = self.shown.fetch(at, into);
        disturb(self.noise, into);
        Ok(())
    }

    // The piece shows bytes that have nothing to do with those put.
    fn put(&mut self, at: Place, bytes: &[u8]) -> Result<(), Refusal> {
        at.check(self.size(), bytes.len())?;
        let any = [self.noise.wrapping_mul(3); 64];
        self.put_both(at, bytes, &any[0..bytes.len()]);
        Ok(())
    }

    // Every byte shown changes.
    fn settle(&mut self) {
        self.noise = self.noise.wrapping_add(1);
    }

    fn pass(&mut self) {
        self.noise = self.noise.wrapping_mul(5).wrapping_add(3);
    }
}
