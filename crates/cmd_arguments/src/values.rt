//! The values that the texts of options stand for.

ghost use Rattle.std.specs.Prelude.{◌≡◌, ◌<◌, ◌≤◌};
ghost use Rattle.cmd_arguments.specs.Values.{choice_value, number_in, steps_value, count_value, top_value};

/// The most steps that a run may be given.
const MOST_STEPS: u128 = 10_000_000;

/// The most routines of a made source.
const MOST_ROUTINES: u128 = 500;

/// The lowest and the highest top of a program area.
const LOWEST_TOP: u128 = 0x1000;

const HIGHEST_TOP: u128 = 0xFF00;

/// The top of the program area that `--top` gives: a multiple of 100H from 1000H to 0FF00H, in four hexadecimal digits.
pub fn top_value(text: &str) -> Option<u16>
    ensures { result ≡ top_value text.now }
{
    if text.len() != 4 {
        return None;
    }
    let top = number_in(16, 4, text)?;
    if top % 0x100 == 0 && LOWEST_TOP <= top && top <= HIGHEST_TOP {
        Some(top as u16)
    } else {
        None
    }
}

/// The choice that `--choice` gives, in 1 to 32 hexadecimal digits.
pub fn choice_value(text: &str) -> Option<u128>
    ensures { result ≡ choice_value text.now }
{
    number_in(16, 32, text)
}

/// The number of steps that `--steps` gives: 1 to 10,000,000, in 1 to 8 decimal digits.
pub fn steps_value(text: &str) -> Option<u32>
    ensures { result ≡ steps_value text.now }
{
    let steps = number_in(10, 8, text)?;
    if 1 <= steps && steps <= MOST_STEPS {
        Some(steps as u32)
    } else {
        None
    }
}

/// The number of routines that a made source is to have: 1 to 500, in 1 to 3 decimal digits.
pub fn count_value(text: &str) -> Option<u32>
    ensures { result ≡ count_value text.now }
{
    let count = number_in(10, 3, text)?;
    if 1 <= count && count <= MOST_ROUTINES {
        Some(count as u32)
    } else {
        None
    }
}

// The number that digits of a base write.
fn number_in(base: u32, most: usize, text: &str) -> Option<u128>
    requires base { (2 ≤ base) × (base ≤ 16) }
    requires most { most ≤ 32 }
    ensures { result ≡ number_in base most text.now }
{
    if text.len() <= most && !text.starts_with('+') {
        u128::from_str_radix(text, base).ok()
    } else {
        None
    }
}
