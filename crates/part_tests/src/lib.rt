//! Tests of the parts of a machine, each by itself, where no script shows it.
#![tactic(auto)]

#[cfg(test)]
mod tests;
