// A line that is buffered, with the bank and the index that it belongs to.
ghost use Rattle.std.specs.Prelude.{◌≡◌};
ghost use Rattle.layers.specs.Places.{line_start};

use stack::located::Located;
use stack::place::Place;

#[derive(Clone, Copy, PartialEq, Eq, Debug, Default)]
pub struct BufferedLine {
    pub bank: usize,
    pub index: usize,
    pub bytes: [u8; 64],
}

impl Located for BufferedLine {
    ghost bank_of = { λ l. l.bank };

    ghost index_of = { λ l. l.index };

    fn bank(&self) -> usize {
        self.bank
    }

    fn index(&self) -> usize {
        self.index
    }
}

impl BufferedLine {
    // Where its bytes begin.
    pub(crate) fn start(&self) -> Place
        ensures is_the_first_byte { result ≡ line_start self.now }
    {
        Place {
            bank: self.bank,
            index: self.index,
            byte: 0,
        }
    }
}
