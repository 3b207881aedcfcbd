#![tactic(auto)]

pub mod code;
pub mod export;
pub mod finder;
pub mod strength;
pub mod word;
