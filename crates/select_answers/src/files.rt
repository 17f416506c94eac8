// The answers to SELECT: of the payment system environment, and of an application.
ghost use Rattle.std.specs.Prelude.{◌≡◌, ◌<◌};
ghost use Rattle.answer_common.specs.Named.{standing, direct, value_of};
ghost use Rattle.select_answers.specs.Files.{environment_right, directory_file, application_right, is_application};
ghost use Rattle.select_answers.specs.Files.{application_name, application_indicator};

use crate::objects::{indicator, is_file, is_indicator, is_name};
use answer_common::answer::inside;
use answer_common::named::{times_in_checked, value_in_checked};
use select_names::begins_with;
use slices::byte;

const SELECTED: usize = 0x6F;

// A5's value.
fn proprietary(answer: &[u8]) -> &[u8]
    ensures { result.now ≡ value_of (direct 0x6F answer.now 0xA5) }
{
    value_in_checked(inside(answer, SELECTED), 0xA5)
}

// Whether the value of 6F and that of its A5 are an FCI of the environment.
fn is_environment(s: &[u8], inner: &[u8]) -> bool
    ensures { result ≡ environment_right (standing s.now) (standing inner.now) }
{
    if !is_name(s, 0x84) {
        return false;
    }
    if !begins_with(b"1PAY.SYS.DDF01", value_in_checked(s, 0x84)) {
        return false;
    }
    times_in_checked(s, 0xA5) == 1 && is_file(inner)
}

// The directory's file; 0 where the answer tells none.
pub fn directory_file(answer: &[u8]) -> usize
    ensures { (result ≡ directory_file answer.now) × (result < 256) }
{
    let inner = proprietary(answer);
    if is_environment(inside(answer, SELECTED), inner) {
        return byte(value_in_checked(inner, 0x88), 0);
    }
    0
}

// The same for an application's.
fn is_application_in(s: &[u8], inner: &[u8]) -> bool
    ensures { result ≡ application_right (standing s.now) (standing inner.now) }
{
    if !is_name(s, 0x84) {
        return false;
    }
    if times_in_checked(s, 0xA5) != 1 {
        return false;
    }
    is_indicator(inner) && times_in_checked(inner, 0x9F38) != 2
}

// Whether an answer has a good FCI of an application.
pub fn is_application(answer: &[u8]) -> bool
    ensures { result ≡ is_application answer.now }
{
    is_application_in(inside(answer, SELECTED), proprietary(answer))
}

// The name in it, as a part of the answer.
pub fn application_name(answer: &[u8]) -> &[u8]
    ensures { result.now ≡ application_name answer.now }
{
    value_in_checked(inside(answer, SELECTED), 0x84)
}

// The priority indicator; 0 where there is none.
pub fn application_indicator(answer: &[u8]) -> usize
    ensures { (result ≡ application_indicator answer.now) × (result < 256) }
{
    indicator(proprietary(answer))
}
