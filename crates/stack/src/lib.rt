// What a memory of banks, indexes and bytes means, and memories that show what they keep.
#![tactic(auto)]

pub mod flat;
pub mod located;
pub mod memory;
pub mod place;
pub mod refusal;
