// Where a session stands: on the tape, and in what it has come to.
use session_records::END;

// The block that is due, and how many list entries are zeros so far.
#[derive(Clone, Copy)]
pub struct Place {
    pub k: usize,
    pub zeros: usize,
}

// START, what the records told, AIP, TVR and TSI.
#[derive(Clone, Copy)]
pub struct Standing<'a> {
    pub start: &'a [u8],
    pub told: &'a [u8; END],
    pub profile: [u8; 2],
    pub tvr: [u8; 5],
    pub tsi: [u8; 2],
}
