// Whole rows of banks, made from the lines of the 64 banks in a work buffer.
ghost use Rattle.std.specs.Prelude.{◌≡◌, ℕ, ◌*◌, ◌-◌, ◌/◌, ◌<◌, ◌≤◌, length, replicate, slice_index};
ghost use Rattle.std.specs.List.{concat, range_with_len};
ghost use Rattle.rules.specs.Places.{xor_over};
ghost use Rattle.rules.specs.Rules.{row as row_of};
ghost use Rattle.rules.specs.Work.{slots, taken, Loads};
ghost use Rattle.board.specs.Marks.{listed};
ghost use Rattle.board.specs.State.{state, line_at, HasChecks};
ghost use Rattle.board.specs.Told.{obtained_by};

mod retiring;
mod scrubbing;

use super::super::lines::xor_into;
use super::super::marks::Marks;
use super::{Board, Site};
use codec::code::check_of;
use codec::word::{Finding, Line};
use rules::roles::Role;
use stack::memory::Stack;
use stack::refusal::Refusal;
use std::ops::Range;

impl<S: Stack> Board<S> {
    // The lines of some banks of an index, into a work buffer; those of a bank to be retired are rebuilt.
    fn load(
        &self,
        retired: Option<usize>,
        index: usize,
        banks: Range<usize>,
        work: &mut [Line],
    ) -> Result<(), Refusal>
        requires in_range { index < (S.Stack.means self.now.stack).size }
        requires real_banks { banks.end ≤ 64 }
        requires room { banks.end ≤ length work.old }
        ensures loads_or_refuses { Loads (taken (state S.Stack self.now) retired) index banks.start (banks.end - banks.start) result (concat work.new) }
    {
        for bank in banks {
            // no `&mut work[bank]`: a proof knows the length of a line of its own, but of none inside an array
            let mut line = [0u8; 64];
            let site = Site {
                board: self,
                address: 64 * index + bank,
            };
            site.obtain(retired, &mut line)?;
            work[bank] = line;
        }
        Ok(())
    }
}

impl<S: Stack> Site<'_, S> {
    // The line of an address, rebuilt where its bank is to be retired, else read.
    fn obtain(&self, retired: Option<usize>, line: &mut Line) -> Result<Finding, Refusal>
        ensures obtains { taken (state S.Stack self.now.board.now) retired self.now.address ≡ obtained_by result line.new }
    {
        if retired == Some(self.address % 64) {
            self.rebuild_line(line)
        } else {
            self.read_line(line)
        }
    }
}

impl Marks {
    // All 64 bytes of a bank at an index whose lines are in a work buffer: a slice, since a proof knows nothing of the lengths of lines in an
    // array behind a reference.
    fn build_row(&self, bank: usize, work: &[Line]) -> Line
        requires real_bank { bank < 72 }
        requires every_line { length work.now ≡ 64 }
        ensures is_the_row { (j : ℕ) → result ≡ row_of (listed self.now) (slots (concat work.now)) j bank }
    {
        match self.role(bank) {
            Role::Line(b) => work[b],
            Role::First(q) => check_row(&work[16 * q..16 * q + 16], 0..4),
            Role::Second(q) => check_row(&work[32 * q..32 * q + 32], 4..6),
            Role::Fifth => check_row(work, 4..5),
            Role::Parity(g) => {
                let banks = self.group(32 * g);
                parity_row(&work[banks.start..banks.end])
            }
            Role::Retired => [0; 64],
        }
    }
}

// A row of check symbols: of each line in turn, the symbols in a range.
fn check_row(lines: &[Line], symbols: Range<usize>) -> Line
    requires fills_the_row { length lines.now * (symbols.end - symbols.start) ≡ 64 }
    requires real_symbols { symbols.end ≤ 6 }
    ensures has_the_checks { HasChecks lines.now symbols.start (symbols.end - symbols.start) result }
{
    let mut row = [0u8; 64];
    let per = symbols.end - symbols.start;
    // no `chunks_exact_mut` with `zip`: of a loop over what it lends the checker knows nothing afterwards
    for (n, line) in lines.iter().enumerate() {
        row[n * per..n * per + per].copy_from_slice(&check_of(line)[symbols.start..symbols.end]);
    }
    row
}

// The XOR of lines.
fn parity_row(lines: &[Line]) -> Line
    ensures is_their_xor { (k : ℕ) → k < 64 → slice_index result k ≡ xor_over (λ b. slice_index (line_at lines.now b) k) (range_with_len 0 (length lines.now)) }
{
    let mut row = [0u8; 64];
    for line in lines {
        xor_into(&mut row, line);
    }
    row
}

// Zeros in the front of a work buffer.
fn zero(front: &mut [u8; 4096])
    ensures zeros { front.new ≡ replicate 4096 0 }
{
    front.fill(0);
}

// The front of a work buffer, as a line for each of the 64 banks. No promise says what the bytes are after lines are written; `zero` follows.
fn lines_of(front: &mut [u8; 4096]) -> &mut [Line; 64] {
    let (lines, _) = front.as_chunks_mut::<64>();
    let Some(lines) = lines.as_mut_array::<64>() else {
        unreachable!()
    };
    lines
}
