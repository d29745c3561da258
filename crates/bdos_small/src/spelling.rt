// Names that are read byte by byte.
ghost use Rattle.std.specs.Prelude.{◌≡◌, ◌≤◌, ◌&&◌, not, true, length, take, MatchResult, IfOk};
ghost use Rattle.bdos_small.specs.Names.{IsNameBetween, is_name_byte, is_before, is_after, highest};
ghost use Rattle.bdos_small.specs.Spelled.{BreaksAt};

use crate::name::{BLANK, NAME_LENGTH, Name, TOP, is_name_byte};

/// Reads from the front of the bytes the name of a file that comes after `last` and has `after` more files behind it; or
/// tells the place of the first byte at which no such name can go on.
pub fn read_name(bytes: &[u8], last: &Option<Name>, after: usize) -> Result<Name, usize>
    requires few { after ≤ 63 }
    requires room { is_after last.now (highest after) ≡ true }
    ensures read { MatchResult result
        (λ name. IsNameBetween last.now after name × (take 11 bytes.now ≡ name))
        (λ k. BreaksAt (IsNameBetween last.now after) (λ name. name) bytes.now k) }
    ensures long { IfOk result (λ _. 11 ≤ length bytes.now) }
{
    let highest = Name::highest(after);
    let mut least = [BLANK; NAME_LENGTH];
    let mut most = [TOP; NAME_LENGTH];
    for place in 0..NAME_LENGTH {
        let Some(byte) = bytes.get(place) else {
            return Err(place);
        };
        least[place] = *byte;
        most[place] = *byte;
        if !goes_on(*byte, last, highest, least, most) {
            return Err(place);
        }
    }
    Ok(Name::of(least))
}

// Whether a name may go on with a byte, by which it lies from `least` to `most`: one of these comes after `last` and is not above
// the highest.
fn goes_on(
    byte: u8,
    last: &Option<Name>,
    highest: Name,
    least: [u8; NAME_LENGTH],
    most: [u8; NAME_LENGTH],
) -> bool
    ensures { result ≡ (is_name_byte byte && (not (is_before highest least) && is_after last.now most)) }
{
    let room = !highest.is_before(&Name::of(least));
    let above = Name::of(most).is_after(last);
    is_name_byte(byte) && room && above
}
