// The command that a search asks, laid into a lent buffer.
#![tactic(auto)]

ghost use Rattle.std.specs.Prelude.{◌≡◌, ◌≤◌, length};
ghost use Rattle.slices.specs.Choice.{pick};
ghost use Rattle.slices.specs.Writing.{laid};
ghost use Rattle.start_list.specs.Rows.{name_room};
ghost use Rattle.start_list.specs.Listing.{applications_in};
ghost use Rattle.commands.specs.Commands.{size_in};
ghost use Rattle.select_list.specs.Kept.{list_in};
ghost use Rattle.select_search.specs.Search.{select_by, command_at};

use commands::write;
use select_list::reading::name_at;
use select_search::Step;
use slices::lay;
use start_list::listing::listed_aid;

// SELECT by name.
fn select_name(p2: u8, name: &[u8], buf: &mut [u8]) -> usize
    requires { length name.now ≤ name_room }
    ensures size { result ≡ size_in (length buf.old) (select_by p2 name.now) }
    ensures buffer { buf.new ≡ laid (select_by p2 name.now) 0 buf.old }
{
    let n = name.len();
    if buf.len() < n + 6 {
        return 0;
    }
    let head = [0x00, 0xA4, 0x04, p2, n as u8];
    lay(buf, 0, &head);
    lay(buf, 5, name);
    lay(buf, 5 + n, b"\x00");
    n + 6
}

// P2: the first occurrence, or the next.
fn occurrence(again: bool) -> u8
    ensures { result ≡ pick again 2 0 }
{
    if again { 2 } else { 0 }
}

// How many bytes the command has; 0 where it has no room, and then nothing is written.
pub fn ask(step: Step, start: &[u8], list: &[u8], buf: &mut [u8]) -> usize
    ensures size { result
        ≡ size_in (length buf.old) (command_at (applications_in start.now) (list_in list.now) step) }
    ensures buffer { buf.new
        ≡ laid (command_at (applications_in start.now) (list_in list.now) step) 0 buf.old }
{
    match step {
        Step::Environment => select_name(0, b"1PAY.SYS.DDF01", buf),
        Step::Directory { file, record } => write::record(record, file, buf),
        Step::Listed { aid, again } => select_name(
            occurrence(again),
            listed_aid(start, aid as usize),
            buf,
        ),
        Step::Final { place, taken: _ } => select_name(0, name_at(list, place as usize), buf),
    }
}
