// Banks that hold lines from the start, and that a mark can retire.
ghost use Rattle.std.specs.Prelude.{◌≡◌, ◌<◌, ◌≤◌, MatchResult};
ghost use Rattle.stack.specs.declared.refusal.Refusal.TheVariants.{BankOutOfRange};

use stack::refusal::Refusal;

// A bank below 64.
#[derive(Clone, Copy, PartialEq, Eq, Debug)]
pub struct Bank {
    pub(crate) number: usize,
    ghost low: { number < 64 },
}

// The bank of a number, if there is one.
impl TryFrom<usize> for Bank {
    type Error = Refusal;

    ghost try_from_gives = { λ n r. MatchResult r (λ b. (b.number ≡ n) × (n < 64)) (λ e. (64 ≤ n) × (e ≡ BankOutOfRange)) };

    fn try_from(number: usize) -> Result<Bank, Refusal> {
        if number < 64 {
            Ok(Bank { number })
        } else {
            Err(Refusal::BankOutOfRange)
        }
    }
}

impl Bank {
    // Its number.
    pub fn number(&self) -> usize
        ensures is_its_number { result ≡ self.now.number }
    {
        self.number
    }
}
