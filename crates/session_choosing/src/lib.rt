// The accepted step of a session under the rules with choosing the application: a selection's own steps, and today's for all others. The
// list of applications is lent.
#![tactic(auto)]

pub mod event;
mod search;
