// The names that programs print.
use crate::{Fault, What};
use std::fmt;

impl fmt::Display for What {
    fn fmt<W: fmt::Write>(&self, f: &mut fmt::Formatter<W>) -> fmt::Result {
        f.write_str(match self {
            What::Resynch => "RESYNCH",
            What::Ifs => "IFS",
            What::Abort => "ABORT",
            What::Wtx => "WTX",
        })
    }
}

impl fmt::Display for Fault {
    fn fmt<W: fmt::Write>(&self, f: &mut fmt::Formatter<W>) -> fmt::Result {
        f.write_str(match self {
            Fault::Under => "under",
            Fault::Over => "over",
            Fault::Edc => "edc",
            Fault::Len => "len",
            Fault::Nad => "nad",
            Fault::Pcb => "pcb",
            Fault::Empty => "empty",
            Fault::Size => "ifs",
            Fault::Inf => "inf",
        })
    }
}
