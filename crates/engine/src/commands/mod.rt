//! The commands, a file for each: from the words behind its name to its text.
pub(crate) mod analyze;
pub(crate) mod apply;
pub(crate) mod bench;
pub(crate) mod expand;
pub(crate) mod serve;
