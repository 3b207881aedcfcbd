// Lines stored: format, write, renew, clear.
ghost use Rattle.std.specs.Prelude.{◌≡◌, ◌/◌, ◌<◌, [], length};
ghost use Rattle.std.specs.List.{range_with_len};
ghost use Rattle.codec.specs.Check.{check as check_line};
ghost use Rattle.stack.specs.Memory.{Fits};
ghost use Rattle.stack.specs.Pieces.{InOrder};
ghost use Rattle.rules.specs.Rules.{answer, along_banks, part, piece_at, when};
ghost use Rattle.rules.specs.History.{Formatted, Given};
ghost use Rattle.rules.specs.Work.{formatting, parity_after as parity_to_put};
ghost use Rattle.rules.specs.declared.calls.Call.TheVariants.{Write, Renew, Clear};
ghost use Rattle.board.specs.State.{Answers, state, Ran, PutsOf, MarksOf, FormatRun, Zeroed, Stores, StoresBank, TellsStorable, cleared_pieces};
ghost use Rattle.board.specs.Told.{told_write, told_renew, told_clear};

use super::super::lines::xor_into;
use super::super::marks::Marks;
use super::{Board, Site};
use codec::code::check_of;
use codec::word::{Finding, Line};
use rules::roles::Role;
use stack::memory::Stack;
use stack::place::Place;
use stack::refusal::Refusal;

impl<S: Stack> Board<S> {
    // A board with zeros everywhere and no bank retired.
    pub fn format(mut stack: S) -> Board<S>
        ensures is_formatted { Formatted (state S.Stack result) }
        ensures keeps_the_size { (S.Stack.means result.stack).size ≡ (S.Stack.means stack).size }
        ensures puts_zeros_then_settles { FormatRun S.Stack stack result.stack }
    {
        zero_all(&mut stack);
        stack.settle();
        Board {
            stack,
            marks: Marks::Zero,
        }
    }

    // Stores a line in place of the one that an address has, and says how the old one was come by.
    pub fn write(&mut self, address: usize, line: &[u8]) -> Result<Finding, Refusal>
        ensures answers_as_ruled { Answers S.Stack self.old (Write address line.now) (told_write result) }
        ensures puts_as_ruled { PutsOf S.Stack self.old (Write address line.now) self.new }
        ensures marks_as_ruled { MarksOf S.Stack self.old (Write address line.now) self.new }
        ensures takes_bytes { Given (Write address line.now) }
    {
        let new = self.storable(address, line)?;
        let mut old = [0u8; 64];
        let site = Site {
            board: self,
            address,
        };
        let finding = site.read_line(&mut old)?;
        let parity = site.parity_after(&old, new);
        self.store(address, new, &parity);
        Ok(finding)
    }

    // Stores a line whatever the address had; the parity line is made anew from the partners.
    pub fn renew(&mut self, address: usize, line: &[u8]) -> Result<(), Refusal>
        ensures answers_as_ruled { Answers S.Stack self.old (Renew address line.now) (told_renew result) }
        ensures puts_as_ruled { PutsOf S.Stack self.old (Renew address line.now) self.new }
        ensures marks_as_ruled { MarksOf S.Stack self.old (Renew address line.now) self.new }
        ensures takes_bytes { Given (Renew address line.now) }
    {
        let new = self.storable(address, line)?;
        let mut parity = *new;
        let site = Site {
            board: self,
            address,
        };
        site.add_partners(&mut parity)?;
        self.store(address, new, &parity);
        Ok(())
    }

    // Stores zeros for the whole group of an address.
    pub fn clear(&mut self, address: usize) -> Result<(), Refusal>
        ensures answers_as_ruled { Answers S.Stack self.old (Clear address) (told_clear result) }
        ensures puts_as_ruled { PutsOf S.Stack self.old (Clear address) self.new }
        ensures marks_as_ruled { MarksOf S.Stack self.old (Clear address) self.new }
    {
        self.check_address(address)?;
        self.clear_group(address % 64, address / 64);
        Ok(())
    }

    // The line to be stored at an address, if there is such an address and the line is as long as lines are.
    fn storable<'a>(&self, address: usize, line: &'a [u8]) -> Result<&'a Line, Refusal>
        ensures tells_whether { TellsStorable (S.Stack.means self.now.stack).size address line.now result }
    {
        self.check_address(address)?;
        <&Line>::try_from(line).map_err(|_| Refusal::LineLength)
    }

    // Stores a line, its check and the parity line, bank after bank; the banks passed over get nothing of them.
    fn store(&mut self, address: usize, line: &Line, parity: &Line)
        requires in_range { address / 64 < (S.Stack.means self.old.stack).size }
        ensures stores { Stores S.Stack self.old address line.now parity.now self.new }
    {
        let check = check_of(line);
        let b = address % 64;
        self.store_bank(b, address, line, &check, parity);
        self.store_bank(64 + b / 16, address, line, &check, parity);
        for bank in 68..72 {
            self.store_bank(bank, address, line, &check, parity);
        }
    }

    // What one bank gets of them.
    fn store_bank(
        &mut self,
        bank: usize,
        address: usize,
        line: &Line,
        check: &[u8; 6],
        parity: &Line,
    )
        requires in_range { address / 64 < (S.Stack.means self.old.stack).size }
        requires real_bank { bank < 72 }
        requires its_check { check.now ≡ check_line line.now }
        ensures stores { StoresBank S.Stack self.old address line.now parity.now bank self.new }
    {
        let b = address % 64;
        let at = Place {
            bank,
            index: address / 64,
            byte: 0,
        };
        match self.marks.role(bank) {
            Role::Line(x) => self.put_when(x == b, at, line),
            Role::First(q) => {
                let byte = 4 * (b % 16);
                self.put_when(q == b / 16, Place { byte, ..at }, &check[0..4])
            }
            Role::Second(q) => {
                let byte = 2 * (b % 32);
                self.put_when(q == b / 32, Place { byte, ..at }, &check[4..6])
            }
            Role::Fifth => self.put_when(true, Place { byte: b, ..at }, &check[4..5]),
            Role::Parity(g) => {
                let group = self.marks.parity_bank(b) - 70;
                self.put_when(g == group, at, parity)
            }
            Role::Retired => {}
        }
    }

    // Puts a piece where a test holds.
    fn put_when(&mut self, test: bool, at: Place, bytes: &[u8])
        requires in_range { Fits (S.Stack.means self.old.stack).size at.bank at.index at.byte (length bytes.now) }
        ensures puts { Ran S.Stack self.old (piece_at (when test (part at.byte bytes.now)) at.index at.bank []) self.new }
    {
        if test {
            let _ = self.stack.put(at, bytes);
        }
    }

    // Zeros in all banks of the group of b at an index.
    fn clear_group(&mut self, b: usize, index: usize)
        requires in_range { index < (S.Stack.means self.old.stack).size }
        ensures clears { Ran S.Stack self.old (cleared_pieces self.old b index) self.new }
    {
        let zero = [0u8; 64];
        for bank in 0..72 {
            if self.marks.holds(b, bank) {
                let _ = self.stack.put(
                    Place {
                        bank,
                        index,
                        byte: 0,
                    },
                    &zero,
                );
            }
        }
    }
}

impl<S: Stack> Site<'_, S> {
    // The parity line to be put with a line that takes an old one's place.
    fn parity_after(&self, old: &Line, new: &Line) -> Line
        ensures is_that_parity { result ≡ parity_to_put (state S.Stack self.now.board.now) self.now.address old.now new.now }
    {
        let bank = self.board.marks.parity_bank(self.address % 64);
        let at = Place {
            bank,
            index: self.address / 64,
            byte: 0,
        };
        let mut parity = [0u8; 64];
        let _ = self.board.stack.fetch(at, &mut parity);
        xor_into(&mut parity, old);
        xor_into(&mut parity, new);
        parity
    }
}

// Zeros in all banks of an index.
fn zero_index<S: Stack>(stack: &mut S, index: usize)
    requires in_range { index < (S.Stack.means stack.old).size }
    ensures zeros { InOrder S.Stack.means S.Stack.puts stack.old (along_banks formatting index (range_with_len 0 72)) stack.new }
{
    let zero = [0u8; 64];
    for bank in 0..72 {
        let _ = stack.put(
            Place {
                bank,
                index,
                byte: 0,
            },
            &zero,
        );
    }
}

// Zeros everywhere.
fn zero_all<S: Stack>(stack: &mut S)
    ensures zeros { Zeroed S.Stack stack.old stack.new }
{
    for index in 0..stack.size() {
        zero_index(stack, index);
    }
}
