// The accepted step of a session, without refusals: what it waits for, and one step on. Kernel and judge share it.
#![tactic(auto)]

pub mod event;
