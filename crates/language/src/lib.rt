// The language of scripts: lines and fields, the commands that they spell, and the rows of the output.
#![tactic(auto)]

pub mod command;
pub mod parts;
mod reading;
pub mod reply;
