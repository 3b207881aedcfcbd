// A board: lines stored with their checks and parity over a stack of memory, banks that can be retired.
#![tactic(auto)]

mod bank;
pub mod board;
mod lines;
pub mod marks;
