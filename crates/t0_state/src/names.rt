// Refusals by name.
use crate::Refusal;
use std::error::Error;
use std::fmt;

impl fmt::Display for Refusal {
    fn fmt<W: fmt::Write>(&self, f: &mut fmt::Formatter<W>) -> fmt::Result {
        let name = match self {
            Refusal::Command => "COMMAND",
            Refusal::Ins => "INS",
            Refusal::Byte => "BYTE",
            Refusal::Place => "PLACE",
            Refusal::Many60 => "MANY-60",
            Refusal::Many61 => "MANY-61",
            Refusal::Many6C => "MANY-6C",
            Refusal::Closed => "CLOSED",
        };
        f.write_str(name)
    }
}

impl Error for Refusal {}
