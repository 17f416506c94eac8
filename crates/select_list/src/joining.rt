// Applications join the list and fall out of it.
ghost use Rattle.std.specs.Prelude.{◌≡◌, [], ◌∷◌, ◌++◌, ◌+◌, ◌-◌, ◌≤◌, ◌<◌, length, take, drop};
ghost use Rattle.slices.specs.Writing.{laid};
ghost use Rattle.start_list.specs.Rows.{name_room, name_in, mark_in, row_size};
ghost use Rattle.select_list.specs.Order.{priority as priority_of, standing_of, candidate_of, placed, without};
ghost use Rattle.select_list.specs.Kept.{most_kept, list_size, room_of, kept_in, list_in};
ghost use Rattle.select_list.specs.Steps.{place_for, mark_of, counted};

use crate::moving::{move_down, move_up};
use crate::reading::{MOST, SIZE, count, standing_at};
use slices::{lay, part};
use start_list::rows::{NAME_ROOM, ROW};

fn set_count(list: &mut [u8], n: usize)
    requires { n ≤ most_kept }
    ensures { list.new ≡ laid (counted n) 0 list.old }
{
    let bytes = [(n / 256) as u8, (n % 256) as u8];
    lay(list, 0, &bytes);
}

// Nobody stands in the list.
pub fn clear(list: &mut [u8])
    ensures { list_in list.new ≡ [] }
{
    set_count(list, 0);
}

fn priority(indicator: usize) -> usize
    ensures { (result ≡ priority_of indicator) × (result ≤ 16) }
{
    let b = indicator % 16;
    if b == 0 { 16 } else { b }
}

// Where an application with that indicator stands.
pub fn standing(choice: bool, indicator: usize) -> usize
    ensures { (result ≡ standing_of choice indicator) × (result < 128) }
{
    let n = priority(indicator);
    if choice {
        return n;
    }
    if 128 <= indicator { n + 32 } else { n }
}

// A row's last byte.
fn mark_of(choice: bool, indicator: usize) -> u8
    ensures { result ≡ mark_of choice indicator }
{
    let n = standing(choice, indicator);
    if 128 <= indicator {
        (n + 128) as u8
    } else {
        n as u8
    }
}

// The row of an application.
fn row_of(name: &[u8], mark: u8) -> [u8; 18]
    ensures { (name_in result ≡ take name_room name.now) × (mark_in result ≡ mark) × (length result ≡ row_size) }
{
    let kept = part(name, 0, NAME_ROOM);
    let mut row = [0u8; 18];
    row[0] = kept.len() as u8;
    lay(&mut row, 1, kept);
    row[17] = mark;
    row
}

// Before the first that stands behind it.
fn place_for(list: &[u8], standing: usize) -> usize
    ensures { (result ≡ place_for standing (list_in list.now)) × (result ≤ length (kept_in list.now)) }
{
    let n = count(list);
    for i in 0..n {
        if standing < standing_at(list, i) {
            return i;
        }
    }
    n
}

// A row put between the first p and those behind them, of which so many are left that m stand beside it.
fn insert(list: &mut [u8], p: usize, m: usize, row: &[u8])
    requires { (length list.old ≡ list_size) × (p ≤ m) × (m < most_kept) × (m ≤ length (kept_in list.old))
        × (length row.now ≡ row_size) }
    ensures { kept_in list.new
        ≡ take p (kept_in list.old) ++ (row.now ∷ take (m - p) (drop p (kept_in list.old))) }
{
    let at = 2 + ROW * p;
    move_up(list, at, ROW * (m - p), ROW);
    lay(list, at, row);
    set_count(list, m + 1);
}

// One joins behind all that do not stand behind it; where there is no room the last falls off. A name is kept as far as its room.
pub fn join(list: &mut [u8], name: &[u8], choice: bool, indicator: usize)
    ensures { list_in list.new
        ≡ take (room_of list.old)
        (placed (candidate_of choice (take name_room name.now) indicator) (list_in list.old)) }
{
    if list.len() != SIZE {
        return;
    }
    let n = count(list);
    let p = place_for(list, standing(choice, indicator));
    let row = row_of(name, mark_of(choice, indicator));
    if n < MOST {
        insert(list, p, n, &row);
        return;
    }
    if p < MOST {
        insert(list, p, MOST - 1, &row);
    }
}

// The one at a place falls out; where nobody stands there, nothing changes.
pub fn remove(list: &mut [u8], i: usize)
    ensures { list_in list.new ≡ without i (list_in list.old) }
{
    let n = count(list);
    if i < n {
        move_down(list, 2 + ROW * i, ROW * (n - 1 - i), ROW);
        set_count(list, n - 1);
    }
}
