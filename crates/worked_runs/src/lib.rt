//! Tests alone: the program over a host that makes its samples as they are read.
#![tactic(auto)]

#[cfg(test)]
mod tests;
