// From TVR and action codes to a decision: the requests, and the issuer's reply.
#![tactic(auto)]

pub mod reply;
pub mod requests;
