// What the terminal's checks find: the bits of the TVR and of the TSI, and the draw of a transaction for going online.
#![tactic(auto)]

pub mod bits;
pub mod results;
pub mod selection;
