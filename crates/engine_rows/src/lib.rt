//! The rows of the program over memory, as tests: words, files, the commands and their faults.
//!
//! It promises nothing itself and defines nothing: what runs promise stands in `engine`. The rows stand here, since the gate
//! proves a crate twice where it has tests, and this one has nothing else. A row is added and none is taken away: some are all
//! that shows what no clause says.
#![tactic(auto)]

#[cfg(test)]
mod edits;
#[cfg(test)]
mod reports;
#[cfg(test)]
mod rules;
#[cfg(test)]
mod sessions;
#[cfg(test)]
mod words;
