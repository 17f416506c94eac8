// The names that programs print.
use crate::{End, Refusal};
use std::fmt;

impl fmt::Display for End {
    fn fmt<W: fmt::Write>(&self, f: &mut fmt::Formatter<W>) -> fmt::Result {
        f.write_str(match self {
            End::Limit => "LIMIT",
            End::Abort => "ABORT",
            End::Silence => "SILENCE",
        })
    }
}

impl fmt::Display for Refusal {
    fn fmt<W: fmt::Write>(&self, f: &mut fmt::Formatter<W>) -> fmt::Result {
        f.write_str(match self {
            Refusal::Closed => "CLOSED",
            Refusal::NotDue => "NOT-DUE",
            Refusal::Message => "MESSAGE",
            Refusal::Value => "VALUE",
        })
    }
}
