// Bytes moved inside a buffer, where the old place and the new one may meet.
ghost use Rattle.std.specs.Prelude.{◌≡◌, ◌+◌, ◌≤◌, length, take, drop};
ghost use Rattle.slices.specs.Writing.{put};

// n bytes from a place on, so many places up: from the last byte on.
pub fn move_up(buf: &mut [u8], at: usize, n: usize, by: usize)
    requires { at + by + n ≤ length buf.old }
    ensures { buf.new ≡ put (take n (drop at buf.old)) (at + by) buf.old }
{
    for i in (0..n).rev() {
        buf[at + by + i] = buf[at + i];
    }
}

// n bytes, so many places down to `at`: from the first byte on.
pub fn move_down(buf: &mut [u8], at: usize, n: usize, by: usize)
    requires { at + by + n ≤ length buf.old }
    ensures { buf.new ≡ put (take n (drop (at + by) buf.old)) at buf.old }
{
    for i in 0..n {
        buf[at + i] = buf[at + by + i];
    }
}
