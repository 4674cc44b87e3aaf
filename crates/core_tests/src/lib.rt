//! Tests of the locked core: its seats, and what they see of each other.
#![tactic(auto)]

#[cfg(test)]
mod tests;
