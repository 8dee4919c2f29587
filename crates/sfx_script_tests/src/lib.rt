//! Tests of the ends of the program, of the lines of a script, and of how values and clock vectors are printed.
#![tactic(auto)]

#[cfg(test)]
mod ends;
#[cfg(test)]
mod faults;
#[cfg(test)]
mod lines;
#[cfg(test)]
mod printed;
