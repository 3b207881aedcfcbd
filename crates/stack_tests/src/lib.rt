// Tests of the memories and of the layers over them.
#![tactic(auto)]

#[cfg(test)]
mod tests;
