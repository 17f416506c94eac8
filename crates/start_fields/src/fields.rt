// The fields of a lent START. No other file knows where they stand. Bytes that are not there are left out of a field of
// bytes, and read as 0 in a field of one byte.
ghost use Rattle.std.specs.Prelude.{◌≡◌, ◌<◌, ◌≤◌, length, drop};
ghost use Rattle.start_fields.specs.Layout.{begin_of, size_of, octet_at, is_length};
ghost use Rattle.start_fields.specs.Reading.{reading_of, bytes_of, octet_of, amount_of, other_amount_of};
ghost use Rattle.start_fields.specs.Reading.{floor_limit_of, threshold_of, digits_in, aid_length_in, aid_room_in};
ghost use Rattle.slices.specs.Tests.{is_some};
ghost use Rattle.decimal_dates.specs.Decimal.{decimal as decimal_of, six_bytes_limit};

use decimal_dates::decimal::two_digits;
use slices::{byte, part};

// The bytes of the shortest START and of the longest, which has Terminal Capabilities behind it.
const LENGTH: usize = 74;

pub const FULL: usize = 77;

pub fn is_length(n: usize) -> bool
    ensures { result ≡ is_length n }
{
    n == LENGTH || n == FULL
}

// The fields that are runs of bytes.
#[derive(Clone, Copy)]
pub enum Field {
    Amount,
    OtherAmount,
    Country,
    Currency,
    Date,
    TransactionType,
    Unpredictable,
    FloorLimit,
    Threshold,
    Version,
    Denial,
    Online,
    Default,
    Capabilities,
}

// The fields that are one byte, a binary number.
#[derive(Clone, Copy)]
pub enum Octet {
    Kind,
    Random,
    Target,
    Maximum,
}

// Of a field two numbers are asked, so neither is a `From`.
impl Field {
    fn begin(self) -> usize
        ensures { result ≡ begin_of self }
    {
        match self {
            Field::Amount => 1,
            Field::OtherAmount => 7,
            Field::Country => 13,
            Field::Currency => 15,
            Field::Date => 17,
            Field::TransactionType => 20,
            Field::Unpredictable => 21,
            Field::FloorLimit => 25,
            Field::Threshold => 33,
            Field::Version => 40,
            Field::Denial => 42,
            Field::Online => 47,
            Field::Default => 52,
            Field::Capabilities => 74,
        }
    }

    fn size(self) -> usize
        ensures { result ≡ size_of self }
    {
        match self {
            Field::Amount => 6,
            Field::OtherAmount => 6,
            Field::Country => 2,
            Field::Currency => 2,
            Field::Date => 3,
            Field::TransactionType => 1,
            Field::Unpredictable => 4,
            Field::FloorLimit => 6,
            Field::Threshold => 6,
            Field::Version => 2,
            Field::Denial => 5,
            Field::Online => 5,
            Field::Default => 5,
            Field::Capabilities => 3,
        }
    }
}

// A place in START and no number of its own, so a method and no `From`.
impl Octet {
    fn place(self) -> usize
        ensures { result ≡ octet_at self }
    {
        match self {
            Octet::Kind => 0,
            Octet::Random => 31,
            Octet::Target => 32,
            Octet::Maximum => 39,
        }
    }
}

pub fn bytes(s: &[u8], f: Field) -> &[u8]
    ensures { result.now ≡ bytes_of f (reading_of s.now) }
{
    part(s, f.begin(), f.size())
}

// The fields from the amount up to the unpredictable number, which are written in digits.
pub fn digits(s: &[u8]) -> &[u8]
    ensures { result.now ≡ digits_in s.now }
{
    part(
        s,
        Field::Amount.begin(),
        Field::Unpredictable.begin() - Field::Amount.begin(),
    )
}

// Whether START has Terminal Capabilities.
pub fn has_capabilities(s: &[u8]) -> bool
    ensures { result ≡ is_some (reading_of s.now).capabilities }
{
    !bytes(s, Field::Capabilities).is_empty()
}

fn octet_in(s: &[u8], o: Octet) -> u8
    ensures { result ≡ octet_of o (reading_of s.now) }
{
    byte(s, o.place()) as u8
}

pub fn kind(s: &[u8]) -> u8
    ensures { result ≡ (reading_of s.now).kind }
{
    octet_in(s, Octet::Kind)
}

pub fn random(s: &[u8]) -> u8
    ensures { result ≡ (reading_of s.now).random }
{
    octet_in(s, Octet::Random)
}

pub fn target(s: &[u8]) -> u8
    ensures { result ≡ (reading_of s.now).target }
{
    octet_in(s, Octet::Target)
}

pub fn maximum(s: &[u8]) -> u8
    ensures { result ≡ (reading_of s.now).maximum }
{
    octet_in(s, Octet::Maximum)
}

// The longest number in START has six bytes; halves above 9 count as they stand.
fn decimal(s: &[u8]) -> u64
    requires { length s.now ≤ 6 }
    ensures { (result ≡ decimal_of s.now) × (result < six_bytes_limit) }
{
    let mut n = 0;
    for b in s {
        n = n * 100 + two_digits(u64::from(*b));
    }
    n
}

// The number of a field that is written in digits.
fn number(s: &[u8], f: Field) -> u64
    ensures { (result ≡ decimal_of (bytes_of f (reading_of s.now))) × (result < six_bytes_limit) }
{
    decimal(bytes(s, f))
}

pub fn amount(s: &[u8]) -> u64
    ensures { (result ≡ amount_of (reading_of s.now)) × (result < six_bytes_limit) }
{
    number(s, Field::Amount)
}

pub fn other_amount(s: &[u8]) -> u64
    ensures { (result ≡ other_amount_of (reading_of s.now)) × (result < six_bytes_limit) }
{
    number(s, Field::OtherAmount)
}

pub fn floor_limit(s: &[u8]) -> u64
    ensures { (result ≡ floor_limit_of (reading_of s.now)) × (result < six_bytes_limit) }
{
    number(s, Field::FloorLimit)
}

pub fn threshold(s: &[u8]) -> u64
    ensures { (result ≡ threshold_of (reading_of s.now)) × (result < six_bytes_limit) }
{
    number(s, Field::Threshold)
}

const AID_LENGTH: usize = 57;

const AID: usize = 58;

pub const AID_ROOM: usize = 16;

pub fn aid_length(s: &[u8]) -> usize
    ensures { result ≡ aid_length_in s.now }
{
    byte(s, AID_LENGTH)
}

fn aid_room(s: &[u8]) -> &[u8]
    ensures { result.now ≡ aid_room_in s.now }
{
    part(s, AID, AID_ROOM)
}

pub fn aid(s: &[u8]) -> &[u8]
    ensures { result.now ≡ (reading_of s.now).aid }
{
    part(aid_room(s), 0, aid_length(s))
}

// What stands after the AID in its room.
pub fn aid_padding(s: &[u8]) -> &[u8]
    ensures { result.now ≡ drop (aid_length_in s.now) (aid_room_in s.now) }
{
    part(aid_room(s), aid_length(s), AID_ROOM)
}
