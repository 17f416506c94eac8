// The proved parts as a library for programs in C, Rust or Python, which `lab_c` exports for x86-64. Each function is the one that it
// calls, told in what passes the border: numbers, bool, slices, and arrays of numbers. It keeps no state and asks nothing of its caller (no
// `requires`): a session is its tape so far, `due::lab_due` of it says what stands next, and `tapes::lab_append` puts an entry there.
#![tactic(auto)]

pub mod books;
pub mod due;
pub mod resets;
pub mod tapes;
