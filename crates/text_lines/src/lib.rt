// Bytes as text, for programs that read and print a line at a time.
#![tactic(auto)]

pub mod decimal;
mod lines;
mod numbers;

pub use lines::{after_word, line_end, word_end};
pub use numbers::{hex_number, number};
