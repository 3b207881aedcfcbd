// Layers over any memory: a write buffer and a fault injector, each a memory itself.
#![tactic(auto)]

pub mod buffer;
pub mod fault;
pub mod injector;
pub mod line;
