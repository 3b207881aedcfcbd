// A bank retired: its lines move to a spare.
ghost use Rattle.std.specs.Prelude.{◌≡◌, ℕ, ◌<◌, ◌≤◌, [], ◌∷◌, ◌++◌, length, None};
ghost use Rattle.rules.specs.Rules.{answer};
ghost use Rattle.rules.specs.Work.{Surveys, lowest_denied, markable};
ghost use Rattle.rules.specs.declared.calls.Call.TheVariants.{Mark};
ghost use Rattle.board.specs.Marks.{listed};
ghost use Rattle.board.specs.State.{Answers, state, Ran, Did, PutsOf, MarksOf, Obtainable, retired_pieces, all_retired_pieces, WorkOf};
ghost use Rattle.board.specs.Told.{told_mark};

use super::{Board, Marks, lines_of, zero};
use codec::word::Line;
use stack::memory::Stack;
use stack::place::Place;
use stack::refusal::Refusal;

impl<S: Stack> Board<S> {
    // Retires a bank, and answers the spare that has its lines from now on.
    pub fn mark(&mut self, bank: usize, work: &mut [u8]) -> Result<usize, Refusal>
        ensures answers_as_ruled { Answers S.Stack self.old (Mark bank (length work.old)) (told_mark result) }
        ensures puts_as_ruled { PutsOf S.Stack self.old (Mark bank (length work.old)) self.new }
        ensures marks_as_ruled { MarksOf S.Stack self.old (Mark bank (length work.old)) self.new }
        ensures zeroes_the_work_buffer { WorkOf S.Stack self.old (Mark bank) work.old work.new }
    {
        let next = self.marks.with_bank(bank)?;
        let Some(front) = work.first_chunk_mut::<4096>() else {
            return Err(Refusal::WorkBufferShort);
        };
        let done = self.retire(bank, next, lines_of(front));
        zero(front);
        done
    }

    // A mark past its argument checks.
    fn retire(&mut self, bank: usize, next: Marks, work: &mut [Line; 64]) -> Result<usize, Refusal>
        requires real_bank { bank < 64 }
        requires allowed { markable bank (listed self.old.marks) ≡ None }
        requires next { listed next ≡ listed self.old.marks ++ bank ∷ [] }
        ensures retires { (n : ℕ) → 4096 ≤ n → Did S.Stack self.old (Mark bank n) (told_mark result) self.new }
    {
        self.survey(bank, work)?;
        self.retire_all(bank, &next, work);
        let spare = self.marks.spare();
        self.marks = next;
        Ok(spare)
    }

    // Whether every line can be obtained once the bank is gone.
    fn survey(&self, bank: usize, work: &mut [Line; 64]) -> Result<(), Refusal>
        ensures surveys { Surveys (state S.Stack self.now) bank result }
    {
        for index in 0..self.stack.size() {
            self.load(Some(bank), index, 0..64, work)?;
        }
        Ok(())
    }

    // Fills the two banks that a mark fills, at every index.
    fn retire_all(&mut self, bank: usize, next: &Marks, work: &mut [Line; 64])
        requires next { listed next.now ≡ listed self.old.marks ++ bank ∷ [] }
        requires obtainable { lowest_denied (state S.Stack self.old) bank ≡ None }
        ensures fills { Ran S.Stack self.old (all_retired_pieces S.Stack self.old bank) self.new }
    {
        for index in 0..self.stack.size() {
            self.retire_index(bank, next, index, work);
        }
    }

    // The same at one index: all its lines are obtained before any put.
    fn retire_index(&mut self, bank: usize, next: &Marks, index: usize, work: &mut [Line; 64])
        requires in_range { index < (S.Stack.means self.old.stack).size }
        requires next { listed next.now ≡ listed self.old.marks ++ bank ∷ [] }
        requires obtainable { Obtainable S.Stack self.old bank index }
        ensures fills { Ran S.Stack self.old (retired_pieces S.Stack self.old bank index) self.new }
    {
        let _ = self.load(Some(bank), index, 0..64, work);
        let lower = self.marks.lower();
        let spare = self.marks.spare();
        let row = next.build_row(lower, work);
        let at = Place {
            bank: lower,
            index,
            byte: 0,
        };
        let _ = self.stack.put(at, &row);
        let row = next.build_row(spare, work);
        let _ = self.stack.put(Place { bank: spare, ..at }, &row);
    }
}
