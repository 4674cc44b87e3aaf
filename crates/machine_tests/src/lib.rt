//! Tests of the whole machine, and of scripts, where no script shows it.
#![tactic(auto)]

#[cfg(test)]
mod tests;
