// A group's lines, checks and parity put anew.
ghost use Rattle.std.specs.Prelude.{◌≡◌, ℕ, ◌/◌, ◌<◌, ◌≤◌, [], length};
ghost use Rattle.std.specs.List.{concat};
ghost use Rattle.rules.specs.Rules.{answer, otherwise_part, part, piece_at};
ghost use Rattle.rules.specs.declared.calls.Call.TheVariants.{Scrub};
ghost use Rattle.board.specs.State.{Answers, state, Ran, Did, PutsOf, MarksOf, Scrubs, ScrubsBank, scrubbed_count, scrubbed_total, WorkOf};
ghost use Rattle.board.specs.Told.{told_scrub};

use super::super::super::lines::differing;
use super::{Board, lines_of, zero};
use codec::word::Line;
use stack::memory::Stack;
use stack::place::Place;
use stack::refusal::Refusal;

impl<S: Stack> Board<S> {
    // Puts every line, check and the parity of an address's group anew, and counts the bytes that were shown otherwise.
    pub fn scrub(&mut self, address: usize, work: &mut [u8]) -> Result<usize, Refusal>
        ensures answers_as_ruled { Answers S.Stack self.old (Scrub address (length work.old)) (told_scrub result) }
        ensures puts_as_ruled { PutsOf S.Stack self.old (Scrub address (length work.old)) self.new }
        ensures marks_as_ruled { MarksOf S.Stack self.old (Scrub address (length work.old)) self.new }
        ensures zeroes_the_work_buffer { WorkOf S.Stack self.old (Scrub address) work.old work.new }
    {
        self.check_address(address)?;
        let Some(front) = work.first_chunk_mut::<4096>() else {
            return Err(Refusal::WorkBufferShort);
        };
        let done = self.scrub_with(address, lines_of(front));
        zero(front);
        done
    }

    // A scrub past its argument checks.
    fn scrub_with(&mut self, address: usize, work: &mut [Line; 64]) -> Result<usize, Refusal>
        requires in_range { address / 64 < (S.Stack.means self.old.stack).size }
        ensures scrubs { (n : ℕ) → 4096 ≤ n → Did S.Stack self.old (Scrub address n) (told_scrub result) self.new }
    {
        let banks = self.marks.group(address % 64);
        self.load(None, address / 64, banks, work)?;
        Ok(self.scrub_group(address % 64, address / 64, work))
    }

    // Puts the banks of the group of b anew from the lines in a work buffer.
    fn scrub_group(&mut self, b: usize, index: usize, work: &[Line; 64]) -> usize
        requires in_range { index < (S.Stack.means self.old.stack).size }
        ensures puts_anew { Scrubs S.Stack self.old b index (concat work.now) self.new }
        ensures counts { result ≡ scrubbed_total S.Stack self.old b index (concat work.now) }
    {
        let mut count = 0;
        for bank in 0..72 {
            count += self.scrub_bank(b, index, bank, work);
        }
        count
    }

    // The same for one bank.
    fn scrub_bank(&mut self, b: usize, index: usize, bank: usize, work: &[Line; 64]) -> usize
        requires real_bank { bank < 72 }
        requires in_range { index < (S.Stack.means self.old.stack).size }
        ensures puts_anew { ScrubsBank S.Stack self.old b index (concat work.now) bank self.new }
        ensures counts { result ≡ scrubbed_count S.Stack self.old b index (concat work.now) bank }
        ensures at_most_64 { result ≤ 64 }
    {
        if !self.marks.holds(b, bank) {
            return 0;
        }
        let row = self.marks.build_row(bank, work);
        self.put_row(bank, index, &row)
    }

    // Puts a row in a bank, and counts the bytes of it that were shown otherwise.
    fn put_row(&mut self, bank: usize, index: usize, row: &Line) -> usize
        requires real_bank { bank < 72 }
        requires in_range { index < (S.Stack.means self.old.stack).size }
        ensures puts_it { Ran S.Stack self.old (piece_at (part 0 row.now) index bank []) self.new }
        ensures counts { result ≡ otherwise_part (S.Stack.means self.old.stack).shown index bank (part 0 row.now) }
        ensures at_most_64 { result ≤ 64 }
    {
        let mut was = [0u8; 64];
        let at = Place {
            bank,
            index,
            byte: 0,
        };
        let _ = self.stack.fetch(at, &mut was);
        let _ = self.stack.put(at, row);
        differing(&was, row)
    }
}
