//! Searches whose answers are checked where they are used: nothing is promised here but an end.

mod tree;

pub(crate) use tree::{Tree, Way, tree_of};
