//! Tests of batches, of applying them, and of sessions, with small replicas in memory.
#![tactic(auto)]

#[cfg(test)]
mod apply;
#[cfg(test)]
mod batch;
#[cfg(test)]
mod fixtures;
#[cfg(test)]
mod session;
