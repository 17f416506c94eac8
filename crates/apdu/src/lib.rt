// Commands and answers, as T=0 and T=1 both have them (000, I-5.4).
#![tactic(auto)]

ghost use Rattle.std.specs.Prelude.{◌≡◌};
ghost use Rattle.apdu.specs.Commands.{case_of, data_of, asked as asked_of};
ghost use Rattle.apdu.specs.Answers.{is_status, is_warning, handed as handed_of};

use slices::{byte, part};

// The most bytes of a command's data, and of an answer: what a command and sixteen '61' can bring by T=0, 256 bytes each, and the status.
pub const DATA_MOST: usize = 255;

pub const ANSWER_MOST: usize = 4354;

// The four cases of a command.
#[derive(Clone, Copy, PartialEq, Eq)]
pub enum Case {
    One,
    Two,
    Three,
    Four,
}

// SW1 and SW2, the status that an answer ends with.
#[derive(Clone, Copy, PartialEq, Eq)]
pub struct Trailer {
    pub sw1: u8,
    pub sw2: u8,
}

// The case of a command, where it has one.
#[tactic(auto, unfolding(slices::specs::Choice::pick, crate::specs::Commands::case_of))]
pub fn case_of(command: &[u8]) -> Option<Case>
    ensures { result ≡ case_of command.now }
{
    let lc = byte(command, 4);
    match command.len() {
        4 => Some(Case::One),
        5 => Some(Case::Two),
        n if n < 4 || lc == 0 => None,
        n if n == 5 + lc => Some(Case::Three),
        n if n == 6 + lc => Some(Case::Four),
        _ => None,
    }
}

// The data that goes with a command.
#[tactic(auto, unfolding(crate::specs::Commands::data_of))]
pub fn data_of(command: &[u8]) -> &[u8]
    ensures { result.now ≡ data_of command.now }
{
    part(command, 5, byte(command, 4))
}

// How many bytes a length byte asks for.
#[tactic(auto, unfolding(slices::specs::Choice::pick, crate::specs::Commands::asked))]
pub fn asked(n: u8) -> usize
    ensures { result ≡ asked_of n }
{
    if n == 0 { 256 } else { n as usize }
}

// Whether a byte is one that status can begin with: '6x' or '9x'.
#[tactic(auto, unfolding(slices::specs::Choice::pick, crate::specs::Answers::is_status))]
pub fn is_status(b: u8) -> bool
    ensures { result ≡ is_status b }
{
    matches!(b / 16, 6 | 9)
}

// Whether a status warns, or belongs to the application: neither an error nor '9000'.
#[tactic(auto, unfolding(slices::specs::Choice::pick, crate::specs::Answers::is_warning))]
pub fn is_warning(status: Trailer) -> bool
    ensures { result ≡ is_warning status }
{
    match (status.sw1, status.sw2) {
        (0x62 | 0x63, _) => true,
        (0x90, 0x00) => false,
        (sw1, _) => sw1 / 16 == 9,
    }
}

// The most bytes of an answer that a session takes, and what it is handed of a longer one.
const HANDED_MOST: usize = 496;

const HANDED_OF_LONGER: usize = 259;

// What a session is handed of an answer, as a part of the answer itself.
#[tactic(auto, unfolding(slices::specs::Choice::pick, crate::specs::Answers::handed))]
pub fn handed(answer: &[u8]) -> &[u8]
    ensures { result.now ≡ handed_of answer.now }
{
    if answer.len() <= HANDED_MOST {
        answer
    } else {
        part(answer, 0, HANDED_OF_LONGER)
    }
}
