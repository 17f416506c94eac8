// The numbers that 01 and 02 give to things, by their names.
// The kinds of entries on a tape.
#![tactic(auto)]

pub const START: u8 = 1;

pub const COMMAND: u8 = 2;

pub const ANSWER: u8 = 3;

pub const SILENCE: u8 = 4;

pub const HOST: u8 = 5;

pub const DECISION: u8 = 6;

pub const RESULTS: u8 = 7;

pub const CHOICE: u8 = 8;

// The last that a tape can hold.
pub const LAST_KIND: u8 = RESULTS;

// When a call is turned away; 0 stands for a call that is taken.
pub const REFUSED_BUFFER: usize = 1;

pub const REFUSED_OVER: usize = 2;

pub const REFUSED_START: usize = 3;

pub const REFUSED_EVENT: usize = 4;

pub const REFUSED_ANSWER: usize = 5;

pub const REFUSED_HOST: usize = 6;

// Those of a tape's writer, which keeps its refusal in a byte.
pub const REFUSED_ENTRY: u8 = 7;

pub const REFUSED_ROOM: u8 = 8;

// Those of objects.
pub const REFUSED_READING: usize = 9;

pub const REFUSED_WRITING: usize = 10;

pub const REFUSED_SPACE: usize = 11;

// A session's again.
pub const REFUSED_RESULTS: usize = 12;

pub const REFUSED_CHOICE: usize = 13;

// Why a tape is unreadable; 0 stands for one that reads.
// Of the whole, beside a place.
pub const CODE_LONG: usize = 1;

pub const CODE_TORN: usize = 2;

// Of a block.
pub const CODE_CHECK: u8 = 3;

pub const CODE_NUMBER: u8 = 4;

pub const CODE_SESSION: u8 = 5;

pub const CODE_KIND: u8 = 6;

pub const CODE_SPARE: u8 = 7;

pub const CODE_LENGTH: u8 = 8;

pub const CODE_PADDING: u8 = 9;

// How a session is decided.
pub const APPROVED: u8 = 1;

pub const DECLINED: u8 = 2;

pub const TERMINATED: u8 = 3;

// Why a session is terminated; 0 stands for no reason.
pub const FOR_SIZE: usize = 1;

pub const FOR_STATUS: usize = 2;

pub const FOR_OBJECT: usize = 3;

pub const FOR_TWICE: usize = 4;

pub const FOR_CONTENT: usize = 5;

pub const FOR_LOCATOR: usize = 6;

pub const FOR_RECORDS: usize = 7;

pub const FOR_MISSING: usize = 8;

pub const FOR_LIST: usize = 9;

pub const FOR_CRYPTOGRAM: usize = 10;

// Of a selection.
pub const FOR_EXCHANGES: usize = 11;

pub const FOR_NOBODY: usize = 12;
