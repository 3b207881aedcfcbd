// The marked banks as a host in C keeps them between calls.
ghost use Rattle.std.specs.Prelude.{◌≡◌, Some, MatchResult};
ghost use Rattle.ffi.specs.Banks.{Given, misgiven, one_more};

use board::marks::Marks;
use stack::refusal::Refusal;

// How many banks are marked, and which, in order; the banks past the count mean nothing. A count and two bytes, since C keeps them.
#[repr(C)]
#[derive(Clone, Copy, Default, PartialEq, Eq, Debug)]
pub struct MarkedBanks {
    pub count: u8,
    pub first: u8,
    pub second: u8,
}

// The marks, or why there can be none like these: each bank is taken as if it were marked now.
impl TryFrom<MarkedBanks> for Marks {
    type Error = Refusal;

    ghost try_from_gives = { λ banks r. MatchResult r (Given banks) (λ e. misgiven banks ≡ Some e) };

    fn try_from(banks: MarkedBanks) -> Result<Marks, Refusal> {
        match banks.count {
            0 => Ok(Marks::Zero),
            1 => Marks::Zero.with_bank(banks.first as usize),
            2 => Marks::Zero
                .with_bank(banks.first as usize)?
                .with_bank(banks.second as usize),
            _ => Err(Refusal::NoSpareLeft),
        }
    }
}

impl MarkedBanks {
    // One bank more.
    pub(crate) fn and(&self, bank: u8) -> MarkedBanks
        ensures has_one_more { result ≡ one_more self.now bank }
    {
        if self.count == 0 {
            MarkedBanks {
                count: 1,
                first: bank,
                second: self.second,
            }
        } else {
            MarkedBanks {
                count: 2,
                first: self.first,
                second: bank,
            }
        }
    }
}
