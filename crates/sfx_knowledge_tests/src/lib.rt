//! Tests of ids, items, clock vectors, segments of places and knowledge.
#![tactic(auto)]

#[cfg(test)]
mod fixtures;
#[cfg(test)]
mod ids;
#[cfg(test)]
mod item;
#[cfg(test)]
mod knowledge;
#[cfg(test)]
mod segments;
#[cfg(test)]
mod vector;
