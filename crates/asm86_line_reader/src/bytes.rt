//! Numbers where a byte is needed.

ghost use Rattle.std.specs.Prelude.{◌≡◌};
ghost use Rattle.asm86_line_reader.specs.Results.{byte_or_m1};

use asm86_line_types::TextRule;

/// The byte that a number is, unless it is above 255.
pub fn byte(n: u16) -> Result<u8, TextRule>
    ensures { result ≡ byte_or_m1 n }
{
    if n > 255 {
        return Err(TextRule::M1);
    }
    Ok(n as u8)
}
