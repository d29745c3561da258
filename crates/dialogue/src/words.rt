// Words of two bytes.
ghost use Rattle.std.specs.Prelude.{◌≡◌, ◌+◌, ◌*◌};
ghost use Rattle.dialogue.specs.Words.{word};

/// A word of two bytes.
pub fn join(high: u8, low: u8) -> u16
    ensures { result ≡ word high low }
{
    256 * u16::from(high) + u16::from(low)
}
