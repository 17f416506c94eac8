// Dates YYMMDD in three bytes. A byte that is not there reads as 0.
ghost use Rattle.std.specs.Prelude.{◌≡◌, ◌≤◌, get_or};
ghost use Rattle.decimal_dates.specs.Decimal.{two_digits};
ghost use Rattle.decimal_dates.specs.Dates.{whole_year, date_key, month_and_day, leap_year};
ghost use Rattle.decimal_dates.specs.Dates.{thirty_days, days_in, valid_start_date, valid_card_date};

use super::decimal::{digits_only, two_digits};
use super::limits::between;

// The number of two digits at a place of the date.
fn pair(d: &[u8], i: usize) -> u64
    ensures { (result ≡ two_digits (get_or d.now i 0)) × (result ≤ 165) }
{
    two_digits(slices::byte(d, i) as u64)
}

// The whole year that two digits stand for.
fn whole_year(y: u64) -> u64
    requires { y ≤ 165 }
    ensures { (result ≡ whole_year y) × (result ≤ 2065) }
{
    if y < 50 { 2000 + y } else { 1900 + y }
}

// What dates are ordered by.
pub fn date_key(d: &[u8]) -> u64
    ensures { result ≡ date_key d.now }
{
    whole_year(pair(d, 0)) * 10000 + (pair(d, 1) * 100 + pair(d, 2))
}

fn month_and_day(d: &[u8]) -> bool
    ensures { result ≡ month_and_day d.now }
{
    between(1, 12, pair(d, 1)) && between(1, 31, pair(d, 2))
}

fn leap_year(y: u64) -> bool
    ensures { result ≡ leap_year y }
{
    y % 4 == 0 && (y % 100 != 0 || y % 400 == 0)
}

fn thirty_days(m: u64) -> bool
    ensures { result ≡ thirty_days m }
{
    matches!(m, 4 | 6 | 9 | 11)
}

fn days_in(y: u64, m: u64) -> u64
    ensures { result ≡ days_in y m }
{
    if m == 2 {
        return if leap_year(y) { 29 } else { 28 };
    }
    if thirty_days(m) { 30 } else { 31 }
}

pub fn valid_start_date(d: &[u8]) -> bool
    ensures { result ≡ valid_start_date d.now }
{
    let month = pair(d, 1);
    between(1, 12, month) && between(1, days_in(whole_year(pair(d, 0)), month), pair(d, 2))
}

pub fn valid_card_date(d: &[u8]) -> bool
    ensures { result ≡ valid_card_date d.now }
{
    if d.len() != 3 {
        return false;
    }
    digits_only(d) && month_and_day(d)
}
