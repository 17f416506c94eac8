// A session played line by line: a call of the kernel, its blocks in the tape's file, its reply. `play` and the program that plays the
// samples share it, so that what the one stores is what the other is tried on. Of what is read and written no contract can speak.
#![tactic(auto)]

mod call;
mod line;
mod stop;
mod store;

pub use call::{Played, answer, next};
