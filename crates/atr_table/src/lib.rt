// Line bytes turned to data bytes, for cards of the inverse convention.
#![tactic(auto)]

mod table;

ghost use Rattle.std.specs.Prelude.{◌≡◌};
ghost use Rattle.atr_table.specs.Turning.{turned as turned_of, TurnedTable};

use table::DATA;

// The data byte of a line byte; and, since turning twice changes nothing, the line byte of a data byte.
pub fn turned(b: u8) -> u8
    ensures { result ≡ turned_of b }
{
    entry(&DATA, b)
}

// The table's rule is asked here for all of it, and answered once, where the stored table is handed in.
fn entry(table: &[u8; 256], b: u8) -> u8
    requires { TurnedTable table.now }
    ensures { result ≡ turned_of b }
{
    table[b as usize]
}
