// A block received where no request of our own is open.
#![tactic(auto)]

mod fields;
mod pieces;
mod requests;

ghost use Rattle.std.specs.Prelude.{◌≡◌};
ghost use Rattle.t1_again.specs.Again.{wrong};
ghost use Rattle.t1_line.specs.Line.{on_kind, on_line};

use fields::on_information;
use pieces::on_ready;
pub use pieces::sends_piece;
pub use requests::is_ifs;
use requests::on_request;
use t1_again::wrong;
use t1_block::Kind;
use t1_state::{State, Turn};

// Beside the block, the first byte of its field and the field's length.
#[tactic(auto, unfolding(crate::specs::Line::on_line))]
pub fn on_line(s: State, block: Result<Kind, u8>, value: u8, n: u8) -> Turn
    ensures { result ≡ on_line block value n s }
{
    match block {
        Ok(kind) => on_kind(s, kind, value, n),
        Err(code) => wrong(s, code),
    }
}

#[tactic(auto, unfolding(crate::specs::Line::on_kind))]
fn on_kind(s: State, kind: Kind, value: u8, n: u8) -> Turn
    ensures { result ≡ on_kind kind value n s }
{
    match kind {
        Kind::Information(number, more) => on_information(s, number, more, n),
        Kind::Ready(number) => on_ready(s, number),
        Kind::Request(w) => on_request(s, w, value),
        Kind::Response(_) => not_allowed(s),
    }
}

// A valid block that the state does not allow counts as invalid.
fn not_allowed(s: State) -> Turn
    ensures { result ≡ wrong 2 s }
{
    wrong(s, 2)
}
