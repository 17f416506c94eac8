// The bytes of all slots together.
ghost use Rattle.std.specs.Prelude.{◌≡◌, length};
ghost use Rattle.session_records.specs.Slots.{end, full, empty_store};

use crate::{END, Store};

pub fn nothing() -> Store
    ensures { result ≡ empty_store }
{
    Store { bytes: [0; END] }
}

// Its bytes, for the functions of slots.
pub fn bytes_of(store: Store) -> [u8; END]
    ensures { (result ≡ full store.bytes) × (length (full store.bytes) ≡ end) }
{
    store.bytes
}
