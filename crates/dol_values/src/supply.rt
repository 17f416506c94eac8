// What object lists know of a tag: its format, and whether it is one of START's.
ghost use Rattle.std.specs.Prelude.{◌≡◌};
ghost use Rattle.dol_values.specs.Shape.{format_of};
ghost use Rattle.dol_values.specs.Known.{own_field};

use answer_common::content::{Format, format_told};
use start_fields::fields::Field;

pub fn format_of(tag: usize) -> Format
    ensures { result ≡ format_of tag }
{
    match tag {
        0x9F02 => Format::Numeric,
        0x9F03 => Format::Numeric,
        0x9F1A => Format::Numeric,
        0x5F2A => Format::Numeric,
        0x9A => Format::Numeric,
        0x9C => Format::Numeric,
        0x9F37 => Format::Other,
        0x9F09 => Format::Other,
        0x9F33 => Format::Other,
        0x95 => Format::Other,
        0x9B => Format::Other,
        0x8A => Format::Other,
        0x82 => Format::Other,
        _ => format_told(tag),
    }
}

// The field of START that a tag stands for, where it is one of START's.
pub fn own_field(tag: usize) -> Option<Field>
    ensures { result ≡ own_field tag }
{
    match tag {
        0x9F02 => Some(Field::Amount),
        0x9F03 => Some(Field::OtherAmount),
        0x9F1A => Some(Field::Country),
        0x5F2A => Some(Field::Currency),
        0x9A => Some(Field::Date),
        0x9C => Some(Field::TransactionType),
        0x9F37 => Some(Field::Unpredictable),
        0x9F09 => Some(Field::Version),
        0x9F33 => Some(Field::Capabilities),
        _ => None,
    }
}
