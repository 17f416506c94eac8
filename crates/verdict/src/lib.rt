// What is said of a tape: a verdict, a place and a code (01, "The tape"), and beside these how many entries of its object lists were
// filled with zeros for want of a value (02, R-6).
#![tactic(auto)]

#[derive(Clone, Copy, PartialEq, Eq)]
pub enum Verdict {
    Pass,
    Fail,
    Inconclusive,
    Unreadable,
}

#[derive(Clone, Copy, PartialEq, Eq)]
pub struct Ruling {
    pub verdict: Verdict,
    pub place: usize,
    pub code: usize,
}

#[derive(Clone, Copy, PartialEq, Eq)]
pub struct Finding {
    pub ruling: Ruling,
    pub zeros: usize,
}
