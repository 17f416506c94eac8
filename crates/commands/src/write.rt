// The commands.
ghost use Rattle.std.specs.Prelude.{◌≡◌, length};
ghost use Rattle.slices.specs.Writing.{laid};
ghost use Rattle.start_fields.specs.Reading.{reading_of};
ghost use Rattle.session_records.specs.Slots.{told_in};
ghost use Rattle.dol_fill.specs.Filled.{filling};
ghost use Rattle.commands.specs.Commands.{select_command, options_command, record_command, cryptogram_command, size_in};

use crate::data::{data_size, lay_data};
use dol_fill::Sources;
use slices::lay;
use start_fields::fields::aid;

// The longest command: what a command buffer must have room for.
pub const LONGEST: usize = 261;

pub fn select(start: &[u8], buf: &mut [u8]) -> usize
    ensures size { result ≡ size_in (length buf.old) (select_command (reading_of start.now).aid) }
    ensures buffer { buf.new ≡ laid (select_command (reading_of start.now).aid) 0 buf.old }
{
    let name = aid(start);
    let n = name.len();
    if buf.len() < n + 6 {
        return 0;
    }
    let head = [0x00, 0xA4, 0x04, 0x00, n as u8];
    lay(buf, 0, &head);
    lay(buf, 5, name);
    lay(buf, 5 + n, b"\x00");
    n + 6
}

pub fn options(list: &[u8], from: Sources, buf: &mut [u8]) -> usize
    ensures size { result
        ≡ size_in (length buf.old)
        (options_command (filling (reading_of from.entry.start.now) (told_in from.entry.known.now) list.now)) }
    ensures buffer { buf.new
        ≡ laid (options_command (filling (reading_of from.entry.start.now) (told_in from.entry.known.now) list.now)) 0
        buf.old }
{
    let n = data_size(list);
    if n < 0x80 {
        if buf.len() < n + 8 {
            return 0;
        }
        let head = [0x80, 0xA8, 0x00, 0x00, (n + 2) as u8, 0x83, n as u8];
        lay(buf, 0, &head);
        lay_data(list, from, buf, 7);
        return n + 8;
    }
    if buf.len() < n + 9 {
        return 0;
    }
    let head = [0x80, 0xA8, 0x00, 0x00, (n + 3) as u8, 0x83, 0x81, n as u8];
    lay(buf, 0, &head);
    lay_data(list, from, buf, 8);
    n + 9
}

pub fn record(number: u8, file: u8, buf: &mut [u8]) -> usize
    ensures size { result ≡ size_in (length buf.old) (record_command number file) }
    ensures buffer { buf.new ≡ laid (record_command number file) 0 buf.old }
{
    if buf.len() < 5 {
        return 0;
    }
    let file = ((8 * file as usize + 4) % 256) as u8;
    let command = [0x00, 0xB2, number, file, 0x00];
    lay(buf, 0, &command);
    5
}

pub fn cryptogram(request: u8, list: &[u8], from: Sources, buf: &mut [u8]) -> usize
    ensures size { result
        ≡ size_in (length buf.old)
        (cryptogram_command request (filling (reading_of from.entry.start.now) (told_in from.entry.known.now) list.now)) }
    ensures buffer { buf.new
        ≡ laid (cryptogram_command request (filling (reading_of from.entry.start.now) (told_in from.entry.known.now) list.now)) 0
        buf.old }
{
    let n = data_size(list);
    if n == 0 {
        if buf.len() < 5 {
            return 0;
        }
        let command = [0x80, 0xAE, request, 0x00, 0x00];
        lay(buf, 0, &command);
        return 5;
    }
    if buf.len() < n + 6 {
        return 0;
    }
    let head = [0x80, 0xAE, request, 0x00, n as u8];
    lay(buf, 0, &head);
    lay_data(list, from, buf, 5);
    n + 6
}
