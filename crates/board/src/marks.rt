// The banks retired so far, and where lines, checks and parity lie then.
ghost use Rattle.std.specs.Prelude.{◌≡◌};
ghost use Rattle.rules.specs.Places.{line_bank, parity_bank, short as short_words};
ghost use Rattle.rules.specs.Rules.{spare_of};
ghost use Rattle.rules.specs.Work.{lower as lower_of};
ghost use Rattle.board.specs.Marks.{listed, Adds, Grows};

use super::bank::Bank;
use stack::refusal::Refusal;

// The marked banks, in the order in which they were marked.
#[derive(Clone, Copy, PartialEq, Eq, Debug)]
pub enum Marks {
    Zero,
    One(Bank),
    Two(Bank, Bank),
}

impl Marks {
    // The bank where the line of bank b lies.
    pub(crate) fn line_bank(&self, b: usize) -> usize
        ensures is_line_bank { result ≡ line_bank (listed self.now) b }
    {
        match *self {
            Marks::One(m) | Marks::Two(m, _) if b == m.number => 71,
            Marks::Two(_, n) if b == n.number => 69,
            _ => b,
        }
    }

    // The bank where the parity line of the group of b lies.
    pub(crate) fn parity_bank(&self, b: usize) -> usize
        ensures is_parity_bank { result ≡ parity_bank (listed self.now) b }
    {
        match *self {
            Marks::Zero => 70 + b / 32,
            _ => 70,
        }
    }

    // Whether words are short.
    pub(crate) fn short(&self) -> bool
        ensures is_short { result ≡ short_words (listed self.now) }
    {
        matches!(*self, Marks::Two(_, _))
    }

    // The marks with one more bank.
    pub(crate) fn with(&self, bank: Bank) -> Result<Marks, Refusal>
        ensures adds_or_refuses { Adds self.now bank result }
    {
        match *self {
            Marks::Zero => Ok(Marks::One(bank)),
            Marks::One(m) | Marks::Two(m, _) if bank.number == m.number => Err(
                Refusal::BankAlreadyMarked,
            ),
            Marks::Two(_, n) if bank.number == n.number => Err(Refusal::BankAlreadyMarked),
            Marks::One(m) => Ok(Marks::Two(m, bank)),
            Marks::Two(_, _) => Err(Refusal::NoSpareLeft),
        }
    }

    // The marks with one more bank, given by its number.
    pub fn with_bank(&self, bank: usize) -> Result<Marks, Refusal>
        ensures adds_or_refuses { Grows self.now bank result }
    {
        self.with(Bank::try_from(bank)?)
    }

    // The bank that the next mark gives the retired bank's lines.
    pub(crate) fn spare(&self) -> usize
        ensures is_the_spare { result ≡ spare_of (listed self.now) }
    {
        match *self {
            Marks::Zero => 71,
            _ => 69,
        }
    }

    // The other bank that the next mark fills.
    pub(crate) fn lower(&self) -> usize
        ensures is_the_lower { result ≡ lower_of (listed self.now) }
    {
        match *self {
            Marks::Zero => 70,
            _ => 68,
        }
    }
}
