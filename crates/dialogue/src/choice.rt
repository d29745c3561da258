// A choice: the 128 bits from which a step or a reply takes what is left undefined.
ghost use Rattle.std.specs.Prelude.{◌≡◌, ◌<◌};
ghost use Rattle.cells.specs.Bits.{has_bit};
ghost use Rattle.dialogue.specs.Choice.{byte_of};

/// Bit `at` of a choice, the lowest being bit 0.
pub fn choice_bit(choice: u128, at: u32) -> bool
    requires { at < 128 }
    ensures { result ≡ has_bit choice at }
{
    (choice >> at) % 2 == 1
}

/// The eight bits of a choice from bit `at` up.
pub fn choice_byte(choice: u128, at: u32) -> u8
    requires { at < 128 }
    ensures { result ≡ byte_of choice at }
{
    ((choice >> at) % 256) as u8
}
