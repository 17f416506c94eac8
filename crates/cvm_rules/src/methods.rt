// What a method needs, what a try of it sets in byte 3 of the TVR, and whether it succeeds.
ghost use Rattle.std.specs.Prelude.{◌≡◌};
ghost use Rattle.cvm_rules.specs.Methods.{method_of, goes_on, has_offline_pin, has_online_pin, has_signature};
ghost use Rattle.cvm_rules.specs.Methods.{supported as supported_by, succeeds as succeeds_with, pin_bits, tried_bits};

use crate::Method;

pub const UNRECOGNISED_METHOD: u8 = 0x40;

pub const TRIES_EXCEEDED: u8 = 0x20;

pub const NO_PIN_PAD: u8 = 0x10;

pub const PIN_NOT_ENTERED: u8 = 0x08;

pub const ONLINE_PIN_ENTERED: u8 = 0x04;

#[tactic(auto, unfolding(crate::specs::Methods::method_of, slices::specs::Tables::beside, slices::specs::Choice::pick))]
pub fn method_of(first: u8) -> Method
    ensures { result ≡ method_of first }
{
    match first % 64 {
        0x00 => Method::Fail,
        0x01 => Method::OfflinePin,
        0x02 => Method::OnlinePin,
        0x03 => Method::OfflinePinAndSignature,
        0x1E => Method::Signature,
        0x1F => Method::NoVerification,
        _ => Method::Unrecognised,
    }
}

// Whether the next rule is applied where this one fails.
pub fn goes_on(first: u8) -> bool
    ensures { result ≡ goes_on first }
{
    first / 64 % 2 == 1
}

pub fn has_offline_pin(means: u8) -> bool
    ensures { result ≡ has_offline_pin means }
{
    means / 128 % 2 == 1
}

pub fn has_online_pin(means: u8) -> bool
    ensures { result ≡ has_online_pin means }
{
    means / 64 % 2 == 1
}

pub fn has_signature(means: u8) -> bool
    ensures { result ≡ has_signature means }
{
    means / 32 % 2 == 1
}

#[tactic(auto, unfolding(crate::specs::Methods::supported))]
pub fn supported(m: Method, means: u8) -> bool
    ensures { result ≡ supported_by m means }
{
    match m {
        Method::Fail | Method::NoVerification => true,
        Method::OfflinePin => has_offline_pin(means),
        Method::OnlinePin => has_online_pin(means),
        Method::OfflinePinAndSignature => has_offline_pin(means) && has_signature(means),
        Method::Signature => has_signature(means),
        Method::Unrecognised => false,
    }
}

#[tactic(auto, unfolding(crate::specs::Methods::succeeds))]
pub fn succeeds(m: Method, means: u8, res: u8) -> bool
    ensures { result ≡ succeeds_with m means res }
{
    match m {
        Method::Fail | Method::Unrecognised => false,
        Method::OfflinePin
        | Method::OnlinePin
        | Method::OfflinePinAndSignature
        | Method::Signature => supported(m, means) && res == 1,
        Method::NoVerification => true,
    }
}

// What a PIN's result sets, with the pad for it and without.
#[tactic(auto, unfolding(crate::specs::Methods::pin_bits, slices::specs::Tables::beside, slices::specs::Choice::pick))]
pub fn pin_bits(pad: bool, res: u8) -> u8
    ensures { result ≡ pin_bits pad res }
{
    if pad {
        match res {
            2 => NO_PIN_PAD,
            3 => PIN_NOT_ENTERED,
            4 => TRIES_EXCEEDED,
            _ => 0,
        }
    } else {
        NO_PIN_PAD
    }
}

#[tactic(auto, unfolding(crate::specs::Methods::tried_bits, slices::specs::Choice::pick))]
pub fn tried_bits(m: Method, means: u8, res: u8) -> u8
    ensures { result ≡ tried_bits m means res }
{
    match m {
        Method::Fail | Method::Signature | Method::NoVerification => 0,
        Method::OfflinePin | Method::OfflinePinAndSignature => {
            pin_bits(has_offline_pin(means), res)
        }
        Method::OnlinePin if succeeds(m, means, res) => ONLINE_PIN_ENTERED,
        Method::OnlinePin => pin_bits(has_online_pin(means), res),
        Method::Unrecognised => UNRECOGNISED_METHOD,
    }
}
