// What banks hold.

// What a bank holds: the line of a bank, first checks, second checks, fifth symbols alone, a parity line, or nothing any more.
#[derive(Clone, Copy)]
pub enum Role {
    // of that bank
    Line(usize),
    // of the 16 banks from 16 times that number on
    First(usize),
    // of the 32 banks from 32 times that number on
    Second(usize),
    Fifth,
    // of that group
    Parity(usize),
    Retired,
}
