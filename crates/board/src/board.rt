// A board over a stack of memory.
ghost use Rattle.std.specs.Prelude.{◌≡◌, ℕ, ◌+◌, ◌-◌, ◌/◌, ◌<◌, ◌++◌, length, OnErr};
ghost use Rattle.codec.specs.Code.{judging};
ghost use Rattle.codec.specs.Shown.{check_of, symbols, told, Kept};
ghost use Rattle.stack.specs.Memory.{Fits, Rest};
ghost use Rattle.rules.specs.Rules.{answer, decoded, rebuilding, reading};
ghost use Rattle.rules.specs.Places.{group_start, group_count, role as role_in, unmarked_role};
ghost use Rattle.rules.specs.Work.{Sums, SumsGroup};
ghost use Rattle.rules.specs.declared.calls.Call.TheVariants.{Read};
ghost use Rattle.board.specs.Marks.{listed, holds_of_group, IsReal};
ghost use Rattle.board.specs.State.{Answers, TellsAddress, state, first_then, shown_line, shown_check};
ghost use Rattle.board.specs.Told.{obtained_by, told_read};

mod rows;
mod storing;

use super::lines::xor_into;
use super::marks::Marks;
use codec::code::{decode, judge};
use codec::word::{Check, Finding, Line, Uncorrectable, Word};
use rules::roles::Role;
use stack::memory::Stack;
use stack::place::Place;
use stack::refusal::Refusal;
use std::ops::Range;

// How long the buffer of a read has to be.
const LINE: usize = 64;

// Lines in 64 banks of a stack, their checks and parity in the others, and the banks retired so far.
#[derive(Drop)]
pub struct Board<S: Stack> {
    stack: S,
    marks: Marks,
}

impl<S: Stack> Board<S> {
    // The number of indexes in each bank.
    pub fn size(&self) -> usize
        ensures is_the_size { result ≡ (S.Stack.means self.now.stack).size }
    {
        self.stack.size()
    }

    // The banks retired so far, in order.
    pub fn marks(&self) -> Marks
        ensures are_the_marks { result ≡ self.now.marks }
    {
        self.marks
    }

    // A board over a stack that an earlier board left, with the banks that were retired by then.
    pub fn resume(stack: S, marks: Marks) -> Board<S>
        ensures takes_the_stack { result.stack ≡ stack }
        ensures takes_the_marks { result.marks ≡ marks }
    {
        Board { stack, marks }
    }

    // The stack, and the board gone.
    pub fn release(self) -> S
        ensures gives_back_the_stack { result ≡ self.stack }
    {
        let Board { stack, marks: _ } = self;
        stack
    }

    // Hands the line of an address out into a buffer of 64 bytes, and says how it was come by.
    pub fn read(&self, address: usize, into: &mut [u8]) -> Result<Finding, Refusal>
        ensures answers_as_ruled { Answers S.Stack self.now (Read address (length into.old)) (told_read result into.new) }
        ensures a_refusal_leaves_the_buffer { OnErr result (into.new ≡ into.old) }
    {
        self.check_address(address)?;
        if into.len() != LINE {
            return Err(Refusal::LineLength);
        }
        let mut line = [0u8; 64];
        let site = Site {
            board: self,
            address,
        };
        let finding = site.read_line(&mut line)?;
        into.copy_from_slice(&line);
        Ok(finding)
    }

    // Puts down what the stack's layers hold back.
    pub fn settle(&mut self)
        ensures settles_the_stack { S.Stack.settles self.old.stack self.new.stack }
        ensures keeps_every_byte { Rest (S.Stack.means self.old.stack) (S.Stack.means self.new.stack) }
        ensures leaves_the_marks { self.new.marks ≡ self.old.marks }
    {
        self.stack.settle();
    }

    // Lets an interval go by.
    pub fn pass(&mut self)
        ensures passes_on_the_stack { S.Stack.passes self.old.stack self.new.stack }
        ensures keeps_every_byte { Rest (S.Stack.means self.old.stack) (S.Stack.means self.new.stack) }
        ensures leaves_the_marks { self.new.marks ≡ self.old.marks }
    {
        self.stack.pass();
    }

    // Whether there is such an address.
    fn check_address(&self, address: usize) -> Result<(), Refusal>
        ensures tells_whether { TellsAddress (S.Stack.means self.now.stack).size address result }
    {
        if address / 64 < self.stack.size() {
            Ok(())
        } else {
            Err(Refusal::AddressOutOfRange)
        }
    }
}

// An address that lies in a board's memory, for reading. What puts changes the board and cannot hold it lent, so it asks for the same fact.
#[derive(Drop)]
struct Site<'a, S: Stack> {
    board: &'a Board<S>,
    address: usize,
    ghost in_range: { address / 64 < (S.Stack.means board.now.stack).size },
}

impl<S: Stack> Site<'_, S> {
    // The line of an address, decoded, or rebuilt from its group where that fails.
    fn read_line(&self, line: &mut Line) -> Result<Finding, Refusal>
        ensures reads { reading (state S.Stack self.now.board.now) self.now.address ≡ obtained_by result line.new }
    {
        // no `or_else`: its closure would write the line, and a proof knows nothing of what a closure writes
        match self.decode_word(line) {
            Ok(finding) => Ok(finding),
            Err(_) => self.rebuild_line(line),
        }
    }

    // The line of an address, rebuilt from its group.
    fn rebuild_line(&self, line: &mut Line) -> Result<Finding, Refusal>
        ensures rebuilds { rebuilding (state S.Stack self.now.board.now) self.now.address ≡ obtained_by result line.new }
    {
        let address = self.address;
        self.sum_group(line)?;
        self.judge_word(line)
            .map_err(|_| Refusal::RebuildFailed { address })
    }

    // The line of an address as its group has it: the shown parity line with the partners' lines.
    fn sum_group(&self, line: &mut Line) -> Result<(), Refusal>
        ensures sums_or_refuses { SumsGroup (state S.Stack self.now.board.now) self.now.address result line.new }
    {
        let bank = self.board.marks.parity_bank(self.address % 64);
        let at = Place {
            bank,
            index: self.address / 64,
            byte: 0,
        };
        let _ = self.board.stack.fetch(at, line);
        self.add_partners(line)
    }

    // XORs the partners' lines into a sum, each as its own word is decoded.
    fn add_partners(&self, sum: &mut Line) -> Result<(), Refusal>
        ensures sums_or_refuses { Sums (state S.Stack self.now.board.now) self.now.address result sum.old sum.new }
    {
        let address = self.address;
        let mut line = [0u8; 64];
        for bank in self.board.marks.group(address % 64) {
            let partner = 64 * (address / 64) + bank;
            if partner != address {
                let site = Site {
                    board: self.board,
                    address: partner,
                };
                site.decode_word(&mut line)
                    .map_err(|_| Refusal::PartnerUncorrectable { address, partner })?;
                xor_into(sum, &line);
            }
        }
        Ok(())
    }

    // Judges the word that a rebuilt line makes with the shown check of its address; the line is corrected in place.
    fn judge_word(&self, line: &mut Line) -> Result<Finding, Uncorrectable>
        ensures judges { judging (line.old ++ shown_check S.Stack self.now.board.now self.now.address) ≡ told result line.new }
    {
        let check = self.fetch_check();
        let word = Word { line: *line, check };
        judge(&word, line)
    }

    // Decodes the word of an address; an uncorrectable one leaves the line's buffer.
    fn decode_word(&self, line: &mut Line) -> Result<Finding, Uncorrectable>
        ensures decodes { decoded (state S.Stack self.now.board.now) self.now.address ≡ told result line.new }
        ensures a_refusal_leaves_the_line { Kept result line.old line.new }
    {
        let word = self.fetch_word();
        decode(&word, line)
    }

    // The shown word of an address.
    fn fetch_word(&self) -> Word
        ensures is_shown { symbols result ≡ shown_line S.Stack self.now.board.now self.now.address ++ shown_check S.Stack self.now.board.now self.now.address }
    {
        let bank = self.board.marks.line_bank(self.address % 64);
        let at = Place {
            bank,
            index: self.address / 64,
            byte: 0,
        };
        let mut line = [0u8; 64];
        let _ = self.board.stack.fetch(at, &mut line);
        let check = self.fetch_check();
        Word { line, check }
    }

    // The shown check of an address.
    fn fetch_check(&self) -> Check
        ensures is_shown { check_of result ≡ shown_check S.Stack self.now.board.now self.now.address }
    {
        let b = self.address % 64;
        let index = self.address / 64;
        if self.board.marks.short() {
            let fifth = Place {
                bank: 68,
                index,
                byte: b,
            };
            Check::Short(self.fetch_symbols(fifth))
        } else {
            let second = Place {
                bank: 68 + b / 32,
                index,
                byte: 2 * (b % 32),
            };
            Check::Full(self.fetch_symbols(second))
        }
    }

    // The shown first check of an address, and after it what is shown from a place on.
    fn fetch_symbols<const N: usize>(&self, rest: Place) -> [u8; N]
        requires lies { Fits (S.Stack.means self.now.board.now.stack).size rest.bank rest.index rest.byte (N - 4) }
        ensures are_shown { result ≡ first_then S.Stack self.now.board.now self.now.address rest.bank rest.index rest.byte (N - 4) }
    {
        let b = self.address % 64;
        let first = Place {
            bank: 64 + b / 16,
            index: self.address / 64,
            byte: 4 * (b % 16),
        };
        let mut check = [0u8; N];
        let symbols = &mut check[..];
        let _ = self.board.stack.fetch(first, &mut symbols[..4]);
        let _ = self.board.stack.fetch(rest, &mut symbols[4..]);
        check
    }
}

impl Marks {
    // The banks of the group of b.
    fn group(&self, b: usize) -> Range<usize>
        requires real_line { b < 64 }
        ensures starts { result.start ≡ group_start (listed self.now) b }
        ensures ends { result.end ≡ group_start (listed self.now) b + group_count (listed self.now) }
    {
        match *self {
            Marks::Zero if b < 32 => 0..32,
            Marks::Zero => 32..64,
            _ => 0..64,
        }
    }

    // What a bank holds.
    #[tactic(auto, unfolding(rules::specs::Places::role))]
    fn role(&self, bank: usize) -> Role
        requires real_bank { bank < 72 }
        ensures is_its_role { result ≡ role_in (listed self.now) bank }
        ensures is_real { IsReal result }
    {
        match (*self, bank) {
            (Marks::One(m), _) if bank == m.number => Role::Retired,
            (Marks::Two(m, n), _) if bank == m.number || bank == n.number => Role::Retired,
            (Marks::One(m) | Marks::Two(m, _), 71) => Role::Line(m.number),
            (Marks::Two(_, n), 69) => Role::Line(n.number),
            (Marks::Two(_, _), 68) => Role::Fifth,
            _ => unmarked(bank),
        }
    }

    // Whether a bank holds lines, checks or the parity of the group of b.
    #[tactic(auto, unfolding(rules::specs::Places::role))]
    fn holds(&self, b: usize, bank: usize) -> bool
        requires real_bank { bank < 72 }
        ensures tells_whether_it_holds { result ≡ holds_of_group (listed self.now) b bank }
    {
        match *self {
            Marks::Zero => {
                let group = match bank {
                    0..=63 => bank / 32,
                    64..=67 => 16 * (bank - 64) / 32,
                    68..=69 => bank - 68,
                    _ => bank - 70,
                };
                group == b / 32
            }
            Marks::One(m) => bank != m.number,
            Marks::Two(m, n) => bank != m.number && bank != n.number,
        }
    }
}

// What a bank holds where none is marked.
fn unmarked(bank: usize) -> Role
    requires real_bank { bank < 72 }
    ensures is_unmarked_role { result ≡ unmarked_role bank }
    ensures is_real { IsReal result }
{
    match bank {
        0..=63 => Role::Line(bank),
        64..=67 => Role::First(bank - 64),
        68..=69 => Role::Second(bank - 68),
        _ => Role::Parity(bank - 70),
    }
}
