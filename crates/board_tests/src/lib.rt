// Tests of the board.
#![tactic(auto)]

#[cfg(test)]
mod tests;
