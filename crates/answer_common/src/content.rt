// What the value of each named object must be.
ghost use Rattle.std.specs.Prelude.{◌≡◌, ◌≤◌, length, take};
ghost use Rattle.start_fields.specs.Reading.{reading_of};
ghost use Rattle.answer_common.specs.Content.{record_names, name_count, names_for, rule_for, format_told, right_value};

use crate::number::is_card_number;
use answer_afl::entries::are_whole;
use decimal_dates::dates::valid_card_date;
use start_fields::fields::has_capabilities;

// The tag of a record's one object.
pub const RECORD: usize = 0x70;

// How many names there are in records, and how many of them count for every terminal.
const ALL_NAMES: usize = 11;

pub const BASE_NAMES: usize = 9;

// The names in records, and those of them that some record must tell: the rows of the definitions' table, in its order.
pub const NAMES: [usize; ALL_NAMES] = [
    0x5A, 0x5F24, 0x5F25, 0x9F08, 0x8C, 0x8D, 0x9F0D, 0x9F0E, 0x9F0F, 0x8E, 0x9F42,
];

pub const MANDATORY: [usize; 4] = [0x5A, 0x5F24, 0x8C, 0x8D];

// How a value is cut or filled to the room that an object list gives it; what lists do not know is all zeros.
#[derive(Clone, Copy)]
pub enum Format {
    Numeric,
    CardNumber,
    Other,
    Unknown,
}

// The rules for values.
#[derive(Clone, Copy)]
pub enum Rule {
    // A number of bytes between two limits.
    Sizes(usize, usize),
    // Entries of an AFL.
    Entries,
    // The card number.
    Number,
    // A date YYMMDD.
    Date,
    // Two amounts of four bytes, then rules of two bytes each.
    Verification,
    Anything,
}

// The most bytes of an object list.
pub const LIST_MOST: usize = 252;

#[tactic(auto, unfolding(crate::specs::Content::rule_for, crate::specs::Content::rules, slices::specs::Tables::beside, slices::specs::Choice::pick))]
pub fn rule_for(tag: usize) -> Rule
    ensures { result ≡ rule_for tag }
{
    match tag {
        0x84 => Rule::Sizes(5, 16),
        0x9F38 => Rule::Sizes(0, LIST_MOST),
        0x82 => Rule::Sizes(2, 2),
        0x94 => Rule::Entries,
        0x5A => Rule::Number,
        0x5F24 => Rule::Date,
        0x5F25 => Rule::Date,
        0x9F08 => Rule::Sizes(2, 2),
        0x8C => Rule::Sizes(0, LIST_MOST),
        0x8D => Rule::Sizes(0, LIST_MOST),
        0x9F0D => Rule::Sizes(5, 5),
        0x9F0E => Rule::Sizes(5, 5),
        0x9F0F => Rule::Sizes(5, 5),
        0x8E => Rule::Verification,
        0x9F42 => Rule::Sizes(2, 2),
        0x9F27 => Rule::Sizes(1, 1),
        0x9F36 => Rule::Sizes(2, 2),
        0x9F26 => Rule::Sizes(8, 8),
        0x9F10 => Rule::Sizes(0, 32),
        _ => Rule::Anything,
    }
}

// How object lists show what records name; any other tag is told by none.
#[tactic(auto, unfolding(slices::specs::Tables::beside, slices::specs::Choice::pick))]
pub fn format_told(tag: usize) -> Format
    ensures { result ≡ format_told tag }
{
    match tag {
        0x5A => Format::CardNumber,
        0x5F24 => Format::Numeric,
        0x5F25 => Format::Numeric,
        0x9F08 => Format::Other,
        0x8C => Format::Unknown,
        0x8D => Format::Unknown,
        0x9F0D => Format::Other,
        0x9F0E => Format::Other,
        0x9F0F => Format::Other,
        0x8E => Format::Unknown,
        0x9F42 => Format::Unknown,
        _ => Format::Unknown,
    }
}

#[tactic(auto, unfolding(crate::specs::Content::right_value, crate::specs::Content::meets, slices::specs::Tests::between, slices::specs::Tests::every, slices::specs::Choice::pick))]
pub fn is_right(tag: usize, v: &[u8]) -> bool
    ensures { result ≡ right_value tag v.now }
{
    match rule_for(tag) {
        Rule::Sizes(fewest, most) => fewest <= v.len() && v.len() <= most,
        Rule::Entries => are_whole(v),
        Rule::Number => is_card_number(v),
        Rule::Date => valid_card_date(v),
        Rule::Verification => 8 <= v.len() && v.len() % 2 == 0,
        Rule::Anything => true,
    }
}

// How many of the names count with a START.
#[tactic(auto, unfolding(crate::specs::Content::names_for, crate::specs::Content::rows_for, slices::specs::Choice::pick))]
pub fn names_for(start: &[u8]) -> usize
    ensures { (result ≡ length (names_for (reading_of start.now)))
        × (take result record_names ≡ names_for (reading_of start.now)) × (result ≤ name_count) }
{
    if has_capabilities(start) {
        ALL_NAMES
    } else {
        BASE_NAMES
    }
}
