// One rule of a verification list (8E): its method, its condition, and what it comes to.
#![tactic(auto)]

pub mod conditions;
pub mod methods;
pub mod turns;

// The methods of 003, Table A-3, by name.
#[derive(Clone, Copy)]
pub enum Method {
    Fail,
    OfflinePin,
    OnlinePin,
    OfflinePinAndSignature,
    Signature,
    NoVerification,
    Unrecognised,
}

// What the terminal was told of the transaction, and what it has.
#[derive(Clone, Copy)]
pub struct Circumstances {
    // 9F02 and 9F03, in the smallest unit
    pub amount: u64,
    pub other: u64,
    // 9C
    pub kind: u8,
    // whether the transaction is in the application's currency
    pub home: bool,
    // byte 2 of 9F33
    pub means: u8,
}

// What a rule comes to: bits for byte 3 of the TVR, and whether the list ends with it.
#[derive(Clone, Copy)]
pub struct Turn {
    pub bits: u8,
    pub ends: bool,
}
