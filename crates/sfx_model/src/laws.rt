//! The laws of the model, by what they are about.
pub(crate) mod achieved;
pub(crate) mod acting;
pub(crate) mod members;
pub(crate) mod recovery;
pub(crate) mod results;
pub(crate) mod sessions;
pub(crate) mod snapshots;
pub(crate) mod undisturbed;
pub(crate) mod world;
