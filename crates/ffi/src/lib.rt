// What a program in another language calls over the static library.
#![tactic(auto)]

pub mod banks;
pub mod boards;
mod lent;
mod lines;
pub mod replies;
pub mod words;
