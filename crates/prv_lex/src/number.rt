//! Numerals. A numeral is at most the greatest word, and has no leading zero, which in C would make it octal.
ghost use Rattle.std.specs.Prelude.{◌≡◌, ◌<◌, IsTrue, length};
ghost use Rattle.std.specs.List.{AllPass};
ghost use Rattle.prv_lex.specs.Bytes.{is_digit};
ghost use Rattle.prv_lex.specs.Numbers.{number_of};

/// The greatest number that a text may have.
const GREATEST: u64 = 2147483647;

/// The number that a run of digits is: none where it's above 2147483647, or has several digits and
/// begins with 0.
pub fn number(digits: &[u8]) -> Option<i32>
    requires some { 0 < length digits.now }
    requires all { AllPass is_digit digits.now }
    ensures { result ≡ number_of digits.now }
{
    if digits.len() > 1 && digits[0] == b'0' {
        return None;
    }
    let mut value: u64 = 0;
    for digit in digits {
        value = value * 10 + u64::from(*digit - b'0');
        if value > GREATEST {
            return None;
        }
    }
    Some(value as i32)
}
