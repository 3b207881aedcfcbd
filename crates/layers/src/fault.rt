// A fault of one byte, and what it does to the bytes that are shown.
ghost use Rattle.std.specs.Prelude.{◌≡◌};
ghost use Rattle.stack.specs.Memory.{spans};
ghost use Rattle.layers.specs.Places.{fault_place};
ghost use Rattle.layers.specs.Faults.{acts, aged, altered, masked, outlasts};

use stack::located::Located;
use stack::place::Place;

#[derive(Clone, Copy, PartialEq, Eq, Debug, Default)]
pub enum FaultKind {
    // the mask's bits are inverted
    #[default]
    Flip,
    // the mask's bits read as one
    StuckAtOne,
    // the mask's bits read as zero
    StuckAtZero,
}

// A fault at a place. It acts once `delay` intervals have gone by.
#[derive(Clone, Copy, PartialEq, Eq, Debug, Default)]
pub struct Fault {
    pub bank: usize,
    pub index: usize,
    pub byte: usize,
    pub kind: FaultKind,
    pub mask: u8,
    pub delay: u8,
}

impl Located for Fault {
    ghost bank_of = { λ f. f.bank };

    ghost index_of = { λ f. f.index };

    fn bank(&self) -> usize {
        self.bank
    }

    fn index(&self) -> usize {
        self.index
    }
}

// Whether a place is one of `count` neighbouring bytes.
fn is_in(at: Place, count: usize, place: Place) -> bool
    ensures tells { result ≡ spans at.bank at.index at.byte count place.bank place.index place.byte }
{
    at.bank == place.bank
        && at.index == place.index
        && place.byte >= at.byte
        && place.byte - at.byte < count
}

// The byte that `v` becomes under a mask.
fn under_mask(kind: FaultKind, mask: u8, v: u8) -> u8
    ensures is_masked { result ≡ masked kind mask v }
{
    match kind {
        FaultKind::Flip => v ^ mask,
        FaultKind::StuckAtOne => v | mask,
        FaultKind::StuckAtZero => v & !mask,
    }
}

impl Fault {
    // The byte that `v` becomes under the fault.
    pub fn alter(&self, v: u8) -> u8
        ensures is_altered { result ≡ altered self.now v }
    {
        under_mask(self.kind, self.mask, v)
    }

    // The place whose byte it is of.
    pub(crate) fn place(&self) -> Place
        ensures is_its_place { result ≡ fault_place self.now }
    {
        Place {
            bank: self.bank,
            index: self.index,
            byte: self.byte,
        }
    }

    // Whether the fault acts, and does so on one of those bytes.
    pub fn acts_on(&self, at: Place, count: usize) -> bool
        ensures tells { result ≡ acts self.now at.bank at.index at.byte count }
    {
        self.delay == 0 && is_in(at, count, self.place())
    }

    // Whether a put on those bytes leaves the fault.
    pub fn outlasts(&self, at: Place, count: usize) -> bool
        ensures tells { result ≡ outlasts at.bank at.index at.byte count self.now }
    {
        match self.kind {
            FaultKind::Flip => !self.acts_on(at, count),
            FaultKind::StuckAtOne | FaultKind::StuckAtZero => true,
        }
    }

    // Lets an interval go by: a delay above 0 falls by one.
    pub(crate) fn age(&mut self)
        ensures ages { self.new ≡ aged self.old }
    {
        self.delay = self.delay.saturating_sub(1);
    }
}
