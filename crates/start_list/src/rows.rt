// Names in rows of 18 bytes: a length, a room of 16, one byte more.
ghost use Rattle.std.specs.Prelude.{◌≡◌, ◌*◌, ◌<◌, take, drop};
ghost use Rattle.start_list.specs.Rows.{row_size, room_in, name_in, mark_in};

use slices::{byte, part};

pub const ROW: usize = 18;

pub const NAME_ROOM: usize = 16;

// The k-th row, from 0, as far as it is there.
pub fn row(s: &[u8], k: usize) -> &[u8]
    ensures { result.now ≡ take row_size (drop (row_size * k) s.now) }
{
    if s.len() / ROW < k {
        return part(s, 0, 0);
    }
    part(s, ROW * k, ROW)
}

// The room that the name stands in.
pub fn room(row: &[u8]) -> &[u8]
    ensures { result.now ≡ room_in row.now }
{
    part(row, 1, NAME_ROOM)
}

pub fn name(row: &[u8]) -> &[u8]
    ensures { result.now ≡ name_in row.now }
{
    part(room(row), 0, byte(row, 0))
}

// The byte behind the room.
pub fn mark(row: &[u8]) -> usize
    ensures { (result ≡ mark_in row.now) × (result < 256) }
{
    byte(row, 17)
}
