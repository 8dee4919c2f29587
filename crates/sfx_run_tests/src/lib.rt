//! Tests of the run of the program: how its ends are read and written, and how it ends.
#![tactic(auto)]

#[cfg(test)]
mod runs;
