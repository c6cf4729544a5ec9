//! Texts as lists of bytes; lines, words, names and numbers in them, read and written.
//!
//! The promise: lines, words, names and numbers are those of their definitions, what the pen adds is exactly that, and what
//! is written is read back (the laws).
//!
//! The definitions stand in `specs/`: words in `Words`, names in `Name`, numbers in `Number`, lines and spans in `Spans`, written
//! texts in `Written`. Every format of the program stands on them, so a change there changes what each file means. Reading
//! takes no memory: lines and words are lent.
#![tactic(auto)]

mod laws;
mod limits;
mod names;
mod numbers;
mod pen;
mod spans;
#[cfg(test)]
mod tests;
mod text;
mod words;

pub use laws::{
    first_lines_are_unique, first_words_are_unique, lines_are_read_back, numbers_are_read_back,
    numbers_are_told, words_are_plain, words_are_read_back,
};
pub use limits::Limit;
pub use names::is_name;
pub use numbers::read_number;
pub use pen::{push_decimal, push_number, push_signed, push_word};
pub use spans::{LineSpan, WordSpan, next_line, next_word};
pub use text::Text;
pub use words::first_word;
