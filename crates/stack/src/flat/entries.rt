// What a flat memory keeps its bytes in. Its calls ask that a part lies within; no crate but this one can name it.
ghost use Rattle.std.specs.Prelude.{◌≡◌, ℕ, ◌+◌, ◌*◌, ◌≤◌, List, length, take, drop};
ghost use Rattle.stack.specs.Flat.{at_least_one, replaced, size_of};

// Entries of one byte each, or of several.
pub trait Entries: Drop {
    // The bytes, in order.
    ghost bytes: { Self → List ℕ };

    // What it becomes exactly when its bytes become those.
    ghost becomes: { Self → List ℕ → Self → Type 0 };

    // The bytes of an entry.
    ghost width: { ℕ };

    // The size that so many entries fit, if they fit one from 1 to 1,024.
    fn size_for(entries: usize) -> Option<usize>
        ensures fits { result ≡ at_least_one (size_of (width * entries)) };

    // How many entries there are.
    fn count(&self) -> usize
        ensures counts { width * result ≡ length (bytes self.now) };

    // Copies a part of the bytes.
    fn read_at(&self, start: usize, into: &mut [u8])
        requires lies { start + length into.old ≤ length (bytes self.now) }
        ensures copies { into.new ≡ take (length into.old) (drop start (bytes self.now)) };

    // Writes a part of the bytes.
    fn write_at(&mut self, start: usize, part: &[u8])
        requires lies { start + length part.now ≤ length (bytes self.old) }
        ensures writes { becomes self.old (replaced (bytes self.old) start part.now) self.new };

    ghost holds: { (s t : Self) (xs : List ℕ) → becomes s xs t → bytes t ≡ xs };
}
