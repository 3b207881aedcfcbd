// Runs scripts on a board over a write buffer, over a fault injector, over a memory in bytes.
#![tactic(auto)]

ghost use Rattle.std.specs.Prelude.{◌≡◌, ◌+◌, ◌<◌, ◌≤◌, ◌++◌, length, IfOk, OnOk};
ghost use Rattle.language.specs.Rows.{row};
ghost use Rattle.script.specs.Piles.{bare_pile_of};
ghost use Rattle.script.specs.Machines.{machine_of};
ghost use Rattle.script.specs.Scripts.{LaterLinesOnlyAdd, Led, OneRowEach, RefusedChangesNothing, RowsWritten, output};

mod lines;

use board::board::Board;
use language::parts::{Lines, next_line};
use language::reply::{Reply, push_row};
use layers::buffer::WriteBuffer;
use layers::injector::FaultInjector;
use lines::{Pile, read_fault, run_line};
use stack::flat::bytes::ByteMemory;
use std::alloc::{AllocError, Global};

// The longest input, in bytes.
pub const LONGEST: usize = 16384;

// The bytes of a memory with 8 indexes in each bank.
const BYTES: usize = 36864;

// The rows written so far, and the number of the line that the next one is for.
#[derive(Drop)]
struct Rows {
    heap: Global,
    bytes: Vec<u8>,
    number: usize,
}

impl Rows {
    // Writes the row of the next line.
    fn push(&mut self, reply: &Reply) -> Result<(), AllocError>
        requires has_a_number { self.old.number < usize.MAX }
        ensures writes_the_row { OnOk result (self.new.bytes.items ≡ self.old.bytes.items ++ row self.old.number reply.now) }
        ensures counts_on { OnOk result (self.new.number ≡ self.old.number + 1) }
    {
        push_row(self.heap, &mut self.bytes, self.number, reply)?;
        self.number += 1;
        Ok(())
    }
}

// The whole output of a script. Nothing is given where memory cannot be had.
pub fn run(heap: Global, input: &[u8]) -> Result<Vec<u8>, AllocError>
    ensures is_the_output { IfOk result (λ out. out.items ≡ output input.now) }
    ensures has_a_row_for_each_line { IfOk result (λ out. OneRowEach input.now out.items) }
{
    let mut bytes = Vec::new(heap);
    if input.len() > LONGEST {
        push_row(heap, &mut bytes, 0, &Reply::unreadable())?;
        return Ok(bytes);
    }
    let mut rows = Rows {
        heap,
        bytes,
        number: 1,
    };
    let memory = ByteMemory::new(vec![in heap; 0u8; BYTES]?);
    let mut injector = FaultInjector::new(memory);
    let rest = inject_leading(&mut injector, input, &mut rows)?;
    let mut board = Board::format(WriteBuffer::new(injector));
    run_lines(&mut board, rest, &mut rows)?;
    let Rows { bytes, .. } = rows;
    Ok(bytes)
}

// What holds of the lines of every script.
pub fn lines_hold() -> u8
    ensures a_refused_line_changes_nothing { RefusedChangesNothing }
    ensures later_lines_only_add { LaterLinesOnlyAdd }
{
    0
}

// Adds the faults of the leading lines, and gives the text from the first line on that is none of them.
fn inject_leading<'a>(
    injector: &mut FaultInjector<ByteMemory>,
    input: &'a [u8],
    rows: &mut Rows,
) -> Result<&'a [u8], AllocError>
    requires short { length input.now ≤ 16384 }
    requires begins { rows.old.number ≡ 1 }
    ensures counts { IfOk result (λ text. rows.new.number + length text.now ≤ 16385) }
    ensures leads { IfOk result (λ text. Led (bare_pile_of injector.old) input.now rows.old.bytes.items
        (bare_pile_of injector.new) rows.new.number text.now rows.new.bytes.items) }
{
    let mut text = input;
    // A line that spells no fault is left to `run_lines`, so the text moves on only behind one that does.
    while let Some((line, rest)) = next_line(text) {
        let Some(fault) = read_fault(line) else {
            break;
        };
        rows.push(&Reply::to_fault(injector.strike(fault)))?;
        text = rest;
    }
    Ok(text)
}

// Runs the lines of a text, and writes a row for each.
fn run_lines(board: &mut Board<Pile>, text: &[u8], rows: &mut Rows) -> Result<(), AllocError>
    requires counts { rows.old.number + length text.now ≤ 16385 }
    ensures writes_the_rows { OnOk result (RowsWritten rows.old.bytes.items rows.old.number (machine_of board.old)
        text.now rows.new.bytes.items) }
{
    for line in Lines(text) {
        rows.push(&run_line(board, line))?;
    }
    Ok(())
}
