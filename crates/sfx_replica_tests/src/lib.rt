//! Tests of settling conflicts, of lists of items in order, and of replicas: their edits, what they tell, and
//! the providers of them.
#![tactic(auto)]

#[cfg(test)]
mod fixtures;
#[cfg(test)]
mod items;
#[cfg(test)]
mod provider;
#[cfg(test)]
mod reading;
#[cfg(test)]
mod replica;
#[cfg(test)]
mod settle;
