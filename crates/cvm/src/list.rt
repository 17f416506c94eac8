// What a verification list holds, what must be handed in for it, and whether its amounts are in the transaction's currency.
ghost use Rattle.std.specs.Prelude.{◌≡◌};
ghost use Rattle.std.proofs.Math.Option.{some, none};
ghost use Rattle.slices.specs.Choice.{pick};
ghost use Rattle.cvm.specs.Lists.{limit_of, rules_in, are_results, in_application_currency};

use slices::byte;

// Where the rules begin, behind the amounts X and Y.
const RULES_AT: usize = 8;

// The highest byte that can be handed in for a rule.
const LAST_RESULT: u8 = 4;

// The first four bytes as a number; bytes that are not there read as 0.
pub fn limit(s: &[u8]) -> u64
    ensures { result ≡ limit_of s.now }
{
    (byte(s, 0) * 0x1000000 + byte(s, 1) * 0x10000 + byte(s, 2) * 0x100 + byte(s, 3)) as u64
}

pub fn rules_in(list: &[u8]) -> usize
    ensures { result ≡ rules_in list.now }
{
    list.len().saturating_sub(RULES_AT) / 2
}

// Whether a payload has so many bytes from 0 to 4, and no more.
pub fn are_results(count: usize, payload: &[u8]) -> bool
    ensures { result ≡ are_results count payload.now }
{
    payload.len() == count && payload.iter().all(|b| *b <= LAST_RESULT)
}

// Given whether there is a 9F42, its bytes, and the transaction's currency.
pub fn in_application_currency(there: bool, application: &[u8], currency: &[u8]) -> bool
    ensures { result ≡ in_application_currency (pick there (some application.now) none) currency.now }
{
    there && slices::alike(application, currency)
}
