// The list check.
ghost use Rattle.std.specs.Prelude.{◌≡◌};
ghost use Rattle.tlv_list.specs.Objects.{is_list};

use crate::place::next;
use tlv_head::Next;
use tlv_head::tag::is_constructed;

// Whether the bytes are a list of objects, at every depth. It calls itself on the value of each constructed object;
// `list_refusal`, through which alone other crates reach it, tests the 4,096 bytes first.
pub fn is_list(s: &[u8]) -> bool
    ensures { result ≡ is_list s.now }
{
    let mut at = 0;
    while at < s.len() {
        match next(s, at) {
            Next::End => return true,
            Next::Broken => return false,
            Next::Member { tag, start, end } => {
                if is_constructed(tag) && !is_list(&s[start..end]) {
                    return false;
                }
                at = end;
            }
        }
    }
    true
}
