// Memories that lie flat, in order of bank, index and byte, and show what they keep.
ghost use Rattle.std.specs.Prelude.{◌≡◌, ℕ, ◌+◌, ◌*◌, ◌<◌, ◌≤◌, List, false, length, take, drop};
ghost use Rattle.stack.specs.Memory.{cells, outside, piece};
ghost use Rattle.stack.specs.Pieces.{Accepted};
ghost use Rattle.stack.specs.Flat.{Start, at_least_one, fitting, flat_means, flat_sound, replaced, size_of, sized, written};

use super::memory::Stack;
use super::place::Place;
use super::refusal::Refusal;

pub mod bytes;
mod entries;
pub mod lent;
pub mod words;

use entries::Entries;

const MOST: usize = 1024;

// The bytes that each unit of size takes.
const UNIT: usize = 4608;

// The bytes at each index of a bank.
const LINE: usize = 64;

// A memory of 4,608 bytes for each unit of size; of size 0 where its entries fit none.
#[derive(Drop)]
pub struct FlatMemory<B: Entries> {
    // what its bytes are kept in
    pub bytes: B,
}

impl<B: Entries> FlatMemory<B> {
    // The size that so many entries give, or their refusal.
    pub fn check_length(length: usize) -> Result<usize, Refusal>
        ensures answers { result ≡ sized (size_of (B.width * length)) }
    {
        B::size_for(length).ok_or(Refusal::LengthFitsNoSize)
    }

    // A memory in those entries.
    pub fn new(bytes: B) -> FlatMemory<B>
        ensures holds { result.bytes ≡ bytes }
    {
        FlatMemory { bytes }
    }

    // The entries back.
    pub fn into_inner(self) -> B
        ensures gives { result ≡ self.bytes }
    {
        let FlatMemory { bytes } = self;
        bytes
    }
}

impl<B: Entries> FlatMemory<B> {
    // Copies the shown bytes of a piece that lies in the memory.
    fn load(&self, at: Place, into: &mut [u8])
        requires lies { outside (size_of (length (B.bytes self.now.bytes))) at.bank at.index at.byte (length into.old) ≡ false }
        ensures copies { into.new ≡ cells (flat_means (B.bytes self.now.bytes)).shown at.bank at.index at.byte (length into.old) }
    {
        self.bytes.read_at(start(self.size(), at, into.len()), into);
    }

    // Keeps the bytes of a piece that lies in the memory.
    fn store(&mut self, at: Place, bytes: &[u8])
        requires lies { outside (size_of (length (B.bytes self.old.bytes))) at.bank at.index at.byte (length bytes.now) ≡ false }
        ensures stores { Accepted (λ s. flat_means (B.bytes s.bytes)) (λ s p t. B.becomes s.bytes (written (B.bytes s.bytes) p) t.bytes)
            self.old (piece at.bank at.index at.byte bytes.now) self.new }
    {
        let from = start(self.size(), at, bytes.len());
        self.bytes.write_at(from, bytes);
    }
}

impl<B: Entries> Stack for FlatMemory<B> {
    ghost means = { λ s. flat_means (B.bytes s.bytes) };

    ghost puts = { λ s p t. B.becomes s.bytes (written (B.bytes s.bytes) p) t.bytes };

    ghost settles = { λ s t. t ≡ s };

    ghost passes = { λ s t. t ≡ s };

    ghost sound = { λ s. flat_sound (B.bytes s.bytes) };

    fn size(&self) -> usize {
        B::size_for(self.bytes.count()).unwrap_or(0)
    }

    fn fetch(&self, at: Place, into: &mut [u8]) -> Result<(), Refusal> {
        at.check(self.size(), into.len())?;
        self.load(at, into);
        Ok(())
    }

    fn put(&mut self, at: Place, bytes: &[u8]) -> Result<(), Refusal> {
        at.check(self.size(), bytes.len())?;
        self.store(at, bytes);
        Ok(())
    }

    fn settle(&mut self) {}

    fn pass(&mut self) {}
}

// The size that so many entries fit, where each unit of size takes `unit` of them.
fn fit(entries: usize, unit: usize) -> Option<usize>
    requires some { 0 < unit }
    ensures fits { result ≡ at_least_one (fitting unit entries) }
{
    let size = entries / unit;
    if entries % unit == 0 && size >= 1 && size <= MOST {
        Some(size)
    } else {
        None
    }
}

// Where a piece of `count` bytes begins.
fn start(size: usize, at: Place, count: usize) -> usize
    requires small { size ≤ 1024 }
    requires lies { outside size at.bank at.index at.byte count ≡ false }
    ensures starts { Start size at.bank at.index at.byte count result }
{
    (at.bank * size + at.index) * 64 + at.byte
}

// Copies bytes into as many others. A whole line goes by an array of its own, so that it is moved in wide steps: the compiler cannot know
// that the two do not overlap.
fn copy_bytes(into: &mut [u8], bytes: &[u8])
    requires as_many { length into.old ≡ length bytes.now }
    ensures copies { into.new ≡ bytes.now }
{
    if bytes.len() == LINE {
        let mut line = [0u8; LINE];
        line.copy_from_slice(bytes);
        into.copy_from_slice(&line);
    } else {
        into.copy_from_slice(bytes);
    }
}

// Copies a part of the bytes.
fn read_part(bytes: &[u8], at: usize, into: &mut [u8])
    requires lies { at + length into.old ≤ length bytes.now }
    ensures copies { into.new ≡ take (length into.old) (drop at bytes.now) }
{
    let count = into.len();
    copy_bytes(into, &bytes[at..at + count]);
}

// Writes a part of the bytes.
fn write_part(bytes: &mut [u8], at: usize, part: &[u8])
    requires lies { at + length part.now ≤ length bytes.old }
    ensures writes { bytes.new ≡ replaced bytes.old at part.now }
{
    copy_bytes(&mut bytes[at..at + part.len()], part);
}
