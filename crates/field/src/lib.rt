#![tactic(auto)]

pub mod arithmetic;
mod carry_table;
mod logs;
mod powers;
mod row_table;
pub mod rows;
