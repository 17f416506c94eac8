// Numbers that are written in decimal digits, two to a byte.
ghost use Rattle.std.specs.Prelude.{◌≡◌};
ghost use Rattle.decimal_dates.specs.Decimal.{two_digits, decimal_byte, digits_only, zeros_only};

pub fn two_digits(b: u64) -> u64
    ensures { result ≡ two_digits b }
{
    b / 16 * 10 + b % 16
}

fn decimal_byte(b: u8) -> bool
    ensures { result ≡ decimal_byte b }
{
    b / 16 <= 9 && b % 16 <= 9
}

pub fn digits_only(s: &[u8]) -> bool
    ensures { result ≡ digits_only s.now }
{
    s.iter().all(|b| decimal_byte(*b))
}

pub fn zeros_only(s: &[u8]) -> bool
    ensures { result ≡ zeros_only s.now }
{
    s.iter().all(|b| *b == 0)
}
