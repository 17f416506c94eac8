// Answers that come as a template 77 of objects, or as 80 with their values joined.
ghost use Rattle.std.specs.Prelude.{◌≡◌};
ghost use Rattle.answer_common.specs.Forms.{read_form};

use crate::answer::{Single, single_of};
use crate::named::value_in_checked;
use slices::part;
use tlv_list::place::{data_field, value};

pub const TEMPLATE: usize = 0x77;

pub const JOINED: usize = 0x80;

// A value of an answer that nothing speaks against, by place: n of the joined bytes from a place on, or what stands under a name. The
// answer is not checked again.
pub fn read_form(answer: &[u8], from: usize, n: usize, name: usize) -> &[u8]
    ensures { result.now ≡ read_form from n name answer.now }
{
    match single_of(answer) {
        Single::Refused(_) => &answer[0..0],
        Single::Object { tag, start, end } => {
            let v = value(data_field(answer), start, end);
            if tag == JOINED {
                part(v, from, n)
            } else {
                value_in_checked(v, name)
            }
        }
    }
}
