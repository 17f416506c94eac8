// The objects that a selection looks at, by what stands under a name in bytes that were checked to be a list.
ghost use Rattle.std.specs.Prelude.{◌≡◌, ◌<◌};
ghost use Rattle.answer_common.specs.Named.{standing};
ghost use Rattle.select_answers.specs.Objects.{name_right, indicator_right, indicator_of, file_right};

use answer_common::named::{times_in_checked, value_in_checked};
use decimal_dates::limits::between;
use slices::byte;

pub fn is_name(s: &[u8], tag: usize) -> bool
    ensures { result ≡ name_right (standing s.now tag) }
{
    between(5, 16, value_in_checked(s, tag).len() as u64)
}

pub fn is_indicator(s: &[u8]) -> bool
    ensures { result ≡ indicator_right (standing s.now 0x87) }
{
    times_in_checked(s, 0x87) == 0 || value_in_checked(s, 0x87).len() == 1
}

pub fn indicator(s: &[u8]) -> usize
    ensures { (result ≡ indicator_of (standing s.now 0x87)) × (result < 256) }
{
    byte(value_in_checked(s, 0x87), 0)
}

pub fn is_file(s: &[u8]) -> bool
    ensures { result ≡ file_right (standing s.now 0x88) }
{
    let v = value_in_checked(s, 0x88);
    if v.len() != 1 {
        return false;
    }
    between(1, 10, byte(v, 0) as u64)
}
