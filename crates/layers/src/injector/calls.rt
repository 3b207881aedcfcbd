// The calls of a fault injector, and those of its table.
ghost use Rattle.std.specs.Prelude.{◌≡◌, [], map, length, filter, nat_le, if◌then◌else◌, Ok, Err};
ghost use Rattle.stack.specs.declared.refusal.Refusal.TheVariants.{FaultTableFull};
ghost use Rattle.stack.specs.Firsts.{first_of};
ghost use Rattle.layers.specs.Faults.{aged, corrupted, corrupted_all, faulty, faulty_sound, outlasts, struck};
ghost use Rattle.layers.specs.Exact.{InjectorPasses, InjectorPuts, InjectorSettles, Struck};
ghost use Rattle.layers.specs.Tables.{faults_in};

use super::super::fault::Fault;
use super::{FaultInjector, FaultTable};
use arrayvec::ArrayVec;
use stack::located::first_at;
use stack::memory::Stack;
use stack::place::Place;
use stack::refusal::Refusal;

// Shows the bytes as they are under one fault.
fn show(fault: &Fault, at: Place, into: &mut [u8])
    ensures shows { into.new ≡ corrupted fault.now at.bank at.index at.byte into.old }
{
    if fault.acts_on(at, into.len()) {
        let byte = &mut into[fault.byte - at.byte];
        *byte = fault.alter(*byte);
    }
}

// Shows the bytes as they are under all of the faults, in their order.
fn show_all(faults: &[Fault], at: Place, into: &mut [u8])
    ensures shows { into.new ≡ corrupted_all faults.now at.bank at.index at.byte into.old }
{
    for fault in faults {
        show(fault, at, into);
    }
}

impl FaultTable {
    // A table with no fault.
    fn new() -> FaultTable
        ensures empty { faults_in result ≡ [] }
    {
        FaultTable {
            faults: ArrayVec::new(),
        }
    }

    // The faults that stand.
    fn standing(&self) -> &[Fault]
        ensures stands { result.now ≡ faults_in self.now }
    {
        self.faults.as_slice()
    }

    // One fault more, at the end, where there is room.
    fn push(&mut self, fault: Fault) -> Result<(), Refusal>
        ensures refuses { result ≡ (if nat_le 64 (length (faults_in self.old)) then Err FaultTableFull else Ok tt) }
        ensures adds { Struck result self.old fault self.new }
    {
        self.faults
            .try_push(fault)
            .map_err(|_| Refusal::FaultTableFull)
    }

    // Lowers each delay above 0 by one.
    fn age(&mut self)
        ensures ages { faults_in self.new ≡ map aged (faults_in self.old) }
    {
        for fault in self.faults.as_mut_slice() {
            fault.age();
        }
    }

    // Removes the flips that act on those bytes; later faults move up.
    fn remove_flips(&mut self, at: Place, count: usize)
        ensures removes { faults_in self.new ≡ filter (outlasts at.bank at.index at.byte count) (faults_in self.old) }
    {
        self.faults.retain(|fault| fault.outlasts(at, count));
    }
}

impl<S: Stack> FaultInjector<S> {
    // The memory with no fault.
    pub fn new(below: S) -> FaultInjector<S>
        ensures holds { result.below ≡ below }
        ensures empty { faults_in result.table ≡ [] }
    {
        FaultInjector {
            below,
            table: FaultTable::new(),
        }
    }

    // One fault more, at the table's end.
    pub fn strike(&mut self, fault: Fault) -> Result<(), Refusal>
        ensures refuses { result ≡ struck (S.Stack.means self.old.below).size (length (faults_in self.old.table)) fault }
        ensures below { self.new.below ≡ self.old.below }
        ensures stands { Struck result self.old.table fault self.new.table }
    {
        fault.place().check(self.below.size(), 1)?;
        if fault.mask == 0 {
            return Err(Refusal::EmptyMask);
        }
        self.table.push(fault)
    }

    // The faults that stand, in the order in which they were made.
    pub fn faults(&self) -> &[Fault]
        ensures stands { result.now ≡ faults_in self.now.table }
    {
        self.table.standing()
    }

    // Where the first fault of that bank and index stands among them, whether it acts or not.
    pub fn first_fault(&self, bank: usize, index: usize) -> Option<usize>
        ensures is_first { result ≡ first_of (λ f. f.bank) (λ f. f.index) bank index (faults_in self.now.table) }
    {
        first_at(self.table.standing(), bank, index)
    }

    // The memory below, without the faults.
    pub fn into_below(self) -> S
        ensures gives { result ≡ self.below }
    {
        let FaultInjector { below, .. } = self;
        below
    }
}

impl<S: Stack> Stack for FaultInjector<S> {
    ghost means = { λ s. faulty (faults_in s.table) (S.Stack.means s.below) };

    ghost puts = { InjectorPuts S.Stack.means S.Stack.puts };

    ghost settles = { InjectorSettles S.Stack.means S.Stack.settles };

    ghost passes = { InjectorPasses S.Stack.means S.Stack.passes };

    ghost sound = { λ s. faulty_sound (faults_in s.table) (S.Stack.sound s.below) };

    fn size(&self) -> usize {
        self.below.size()
    }

    // where it is called the length is known, and so is how to copy that many bytes
    #[inline(always)]
    fn fetch(&self, at: Place, into: &mut [u8]) -> Result<(), Refusal> {
        self.below.fetch(at, into)?;
        show_all(self.table.standing(), at, into);
        Ok(())
    }

    fn put(&mut self, at: Place, bytes: &[u8]) -> Result<(), Refusal> {
        self.below.put(at, bytes)?;
        self.table.remove_flips(at, bytes.len());
        Ok(())
    }

    fn settle(&mut self) {
        self.below.settle();
    }

    fn pass(&mut self) {
        self.table.age();
        self.below.pass();
    }
}
