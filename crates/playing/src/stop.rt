// Why nothing more is played, and what standard error says of it.
use std::io;
use text_print::fail;

// A line was not written to standard output; or a block was not stored, or refused; or the tape has no room for a call.
#[derive(Drop)]
pub enum Stop {
    Unsaid(io::Error),
    Unstored(io::Error),
    Refused,
    Full,
}

// What `?` makes of a line that was not written.
impl From<io::Error> for Stop {
    fn from(error: io::Error) -> Self {
        Self::Unsaid(error)
    }
}

impl Stop {
    pub(crate) fn tell(&self, rt: &impl Eprint) {
        match self {
            Self::Unsaid(e) => fail(rt, "standard output: a line was not written", e),
            Self::Unstored(e) => fail(rt, "tape", e),
            Self::Refused => say(rt, "tape: the blocks of a call were refused\n"),
            Self::Full => say(rt, "tape: full\n"),
        }
    }
}

// Where standard error cannot be written, nobody is told.
fn say(rt: &impl Eprint, text: &str) {
    let _ = rt.eprint(text);
}
