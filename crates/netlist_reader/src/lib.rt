//! Netlist files and files of edits are read, and netlists written in one way.
//!
//! The promise: `read` gives the netlist that a file's lines make, or the first refused line; `read_edits` the edits of a file, or
//! its first line that is none; the text that `write` gives is read back as the same netlist.
//!
//! What a line says is defined once, in `specs/EditLines`, for netlist files, files of edits and scripts; a file in `NetlistFiles` and
//! `EditFiles`, the written text in `Canonical`. A further form of line is an edit of netlist_model first. The words of a netlist
//! file are lent to the statements, and not copied.
#![tactic(auto)]

mod edit_files;
mod faults;
mod files;
mod laws;
mod lent;
mod lines;
mod words;
mod writing;

pub use edit_files::read_edits;
pub use faults::{EditsFault, LineFault, NetFault};
pub use files::read;
pub use laws::{
    accepted_files_are_edits, deleted_nets_lose_their_line, edit_files_are_told,
    first_line_refuses, netlists_are_sound, written_netlists_are_read_back,
};
pub use lines::read_edit;
pub use words::{event_word, take_end, take_word};
pub use writing::write;
