// The calls of a write buffer, and those of its table.
ghost use Rattle.std.specs.Prelude.{◌≡◌, ◌+◌, ◌<◌, ◌≤◌, false, [], ◌∷◌, ◌++◌, length, MatchOption};
ghost use Rattle.stack.specs.Memory.{piece};
ghost use Rattle.stack.specs.Firsts.{first_of};
ghost use Rattle.layers.specs.Exact.{BufferPasses, BufferPuts, BufferSettles};
ghost use Rattle.layers.specs.Lines.{buffering, buffering_sound, has_room, is_buffered, line_of, looked_up, rewritten};
ghost use Rattle.layers.specs.Tables.{lines_in};

use super::super::line::BufferedLine;
use super::{LineTable, WriteBuffer};
use arrayvec::ArrayVec;
use stack::located::first_at;
use stack::memory::Stack;
use stack::place::Place;
use stack::refusal::Refusal;

// The first bank whose lines are buffered.
const FIRST_BANK: usize = 64;

impl LineTable {
    // A table with no line.
    fn new() -> LineTable
        ensures empty { lines_in result ≡ [] }
    {
        LineTable {
            lines: ArrayVec::new(),
        }
    }

    // The lines that are buffered.
    fn standing(&self) -> &[BufferedLine]
        ensures stands { result.now ≡ lines_in self.now }
    {
        self.lines.as_slice()
    }

    // Whether a put of `count` bytes in that bank, of a line that is not buffered, is buffered.
    fn accepts(&self, bank: usize, count: usize) -> bool
        ensures tells { result ≡ has_room (lines_in self.now) bank count }
    {
        bank >= FIRST_BANK && count == 64 && !self.lines.is_full()
    }

    // Where the line of that bank and index stands.
    fn find(&self, bank: usize, index: usize) -> Option<usize>
        ensures known { MatchOption result (is_buffered (lines_in self.now) bank index ≡ false) (λ j. j < length (lines_in self.now)) }
        ensures first { result ≡ first_of (λ l. l.bank) (λ l. l.index) bank index (lines_in self.now) }
    {
        first_at(self.standing(), bank, index)
    }

    // Copies a part of the line of that bank and index, and answers whether it did, as a set's `insert` does: false where none is buffered.
    fn show(&self, at: Place, into: &mut [u8]) -> bool
        requires part { at.byte + length into.old ≤ 64 }
        ensures found { result ≡ is_buffered (lines_in self.now) at.bank at.index }
        ensures copies { into.new ≡ looked_up result (lines_in self.now) at.bank at.index at.byte into.old }
    {
        let Some(j) = self.find(at.bank, at.index) else {
            return false;
        };
        let line = self.standing()[j];
        let end = at.byte + into.len();
        into.copy_from_slice(&line.bytes[at.byte..end]);
        true
    }

    // Writes a part of the line of that bank and index, and answers whether it did.
    fn rewrite(&mut self, at: Place, bytes: &[u8]) -> bool
        requires part { at.byte + length bytes.now ≤ 64 }
        ensures found { result ≡ is_buffered (lines_in self.old) at.bank at.index }
        ensures stays { result ≡ false → self.new ≡ self.old }
        ensures writes { lines_in self.new ≡ rewritten (lines_in self.old) (piece at.bank at.index at.byte bytes.now) }
    {
        let Some(j) = self.find(at.bank, at.index) else {
            return false;
        };
        let mut line = self.standing()[j];
        line.bytes[at.byte..at.byte + bytes.len()].copy_from_slice(bytes);
        self.lines.as_mut_slice()[j] = line;
        true
    }

    // One line more, at the end.
    fn push(&mut self, bank: usize, index: usize, bytes: &[u8])
        requires room { length (lines_in self.old) < 16 }
        requires whole { length bytes.now ≡ 64 }
        requires other { is_buffered (lines_in self.old) bank index ≡ false }
        ensures adds { lines_in self.new ≡ lines_in self.old ++ line_of (piece bank index 0 bytes.now) ∷ [] }
    {
        let mut line = BufferedLine {
            bank,
            index,
            bytes: [0; 64],
        };
        line.bytes.copy_from_slice(bytes);
        self.lines.push(line);
    }

    // Lets go of every line.
    fn clear(&mut self)
        ensures empty { lines_in self.new ≡ [] }
    {
        self.lines.clear();
    }
}

impl<S: Stack> WriteBuffer<S> {
    // The memory with no line buffered.
    pub fn new(below: S) -> WriteBuffer<S>
        ensures holds { result.below ≡ below }
        ensures empty { lines_in result.table ≡ [] }
    {
        WriteBuffer {
            below,
            table: LineTable::new(),
        }
    }

    // The lines that are buffered, in the order in which they came.
    pub fn buffered(&self) -> &[BufferedLine]
        ensures stands { result.now ≡ lines_in self.now.table }
    {
        self.table.standing()
    }

    // The memory below, without the buffered lines: settle first to keep them.
    pub fn into_below(self) -> S
        ensures gives { result ≡ self.below }
    {
        let WriteBuffer { below, .. } = self;
        below
    }
}

impl<S: Stack> Stack for WriteBuffer<S> {
    ghost means = { λ s. buffering (lines_in s.table) (S.Stack.means s.below) };

    ghost puts = { BufferPuts S.Stack.means S.Stack.puts };

    ghost settles = { BufferSettles S.Stack.means S.Stack.puts S.Stack.settles };

    ghost passes = { BufferPasses S.Stack.means S.Stack.passes };

    ghost sound = { λ s. buffering_sound (lines_in s.table) (S.Stack.sound s.below) };

    fn size(&self) -> usize {
        self.below.size()
    }

    // where it is called the length is known, and so is how to copy that many bytes
    #[inline(always)]
    fn fetch(&self, at: Place, into: &mut [u8]) -> Result<(), Refusal> {
        at.check(self.below.size(), into.len())?;
        if self.table.show(at, into) {
            return Ok(());
        }
        self.below.fetch(at, into)
    }

    fn put(&mut self, at: Place, bytes: &[u8]) -> Result<(), Refusal> {
        at.check(self.below.size(), bytes.len())?;
        if self.table.rewrite(at, bytes) {
            return Ok(());
        }
        if self.table.accepts(at.bank, bytes.len()) {
            self.table.push(at.bank, at.index, bytes);
            return Ok(());
        }
        self.below.put(at, bytes)
    }

    fn settle(&mut self) {
        for line in self.table.standing() {
            let _ = self.below.put(line.start(), &line.bytes);
        }
        self.table.clear();
        self.below.settle();
    }

    fn pass(&mut self) {
        self.below.pass();
    }
}
