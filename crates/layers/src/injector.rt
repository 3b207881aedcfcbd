// A memory with faults in the bytes that it shows.
ghost use Rattle.std.specs.Prelude.{◌≤◌, length};

use super::fault::Fault;
use arrayvec::ArrayVec;
use stack::memory::Stack;

mod calls;

// A table of faults in the order in which they were made.
#[derive(Drop)]
struct FaultTable {
    faults: ArrayVec<Fault, 64>,
    ghost room: { length faults.items ≤ 64 },
}

// Keeps what the memory below keeps, and shows it under the faults of a table.
#[derive(Drop)]
pub struct FaultInjector<S: Stack> {
    below: S,
    table: FaultTable,
}
