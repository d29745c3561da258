//! Numbers.

ghost use Rattle.std.specs.Prelude.{◌≡◌, ◌≤◌, nat_lt};
ghost use Rattle.std.specs.Char.{digit_value};
ghost use Rattle.std.specs.List.{list_all};
ghost use Rattle.asm86_line_reader.specs.Numbers.{number_of_word, value_in};

use std::str;

/// The number that digits of a base spell; None where there is no digit or one that the base lacks, and where the number is
/// above 65,535.
pub fn value_in(base: u32, digits: &[u8]) -> Option<u16>
    requires { (2 ≤ base) × (base ≤ 16) }
    ensures { result ≡ value_in base digits.now }
{
    if !all_digits(base, digits) {
        return None;
    }
    let Ok(text) = str::from_utf8(digits) else {
        return None;
    };
    match u16::from_str_radix(text, base) {
        Ok(n) => Some(n),
        Err(_) => None,
    }
}

fn all_digits(base: u32, digits: &[u8]) -> bool
    requires { (2 ≤ base) × (base ≤ 16) }
    ensures { result ≡ list_all (λ c. nat_lt (digit_value c) base) digits.now }
{
    for digit in digits {
        if !char::from(*digit).is_digit(base) {
            return false;
        }
    }
    true
}

/// The value of a word that begins with a digit, if it is a number.
#[tactic(auto, unfolding(crate::specs::Numbers::number_of_word))]
pub fn number_of(word: &[u8]) -> Option<u16>
    ensures { result ≡ number_of_word word.now }
{
    let Some((last, digits)) = word.split_last() else {
        return value_in(10, word);
    };
    match *last {
        b'H' => value_in(16, digits),
        _ => value_in(10, word),
    }
}
