// A memory with lines buffered above it until they are settled.
ghost use Rattle.std.specs.Prelude.{◌≡◌, ◌≤◌, true, length};
ghost use Rattle.layers.specs.Lines.{orderly};

use super::line::BufferedLine;
use arrayvec::ArrayVec;
use stack::memory::Stack;

mod calls;

// A table of lines in the order in which they came.
#[derive(Drop)]
struct LineTable {
    lines: ArrayVec<BufferedLine, 16>,
    ghost room: { length lines.items ≤ 16 },
    ghost order: { orderly lines.items ≡ true },
}

// Buffers up to 16 whole lines of the banks from 64 on. A buffered line is kept and shown as buffered.
#[derive(Drop)]
pub struct WriteBuffer<S: Stack> {
    below: S,
    table: LineTable,
}
