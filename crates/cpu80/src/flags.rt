// The flags (Intel 8080 Assembly Language Programming Manual, "Condition bits").
ghost use Rattle.std.specs.Prelude.{◌≡◌, ◌+◌, ◌<◌};
ghost use Rattle.cpu80.specs.Flags.{settled, chosen_flags, flag_byte, flags_in_byte, holds};
ghost use Rattle.cpu80.specs.ProcessorState.{untagged_flags};

use cells::{Cond, Flags};
use dialogue::choice_bit;

/// The five flags, each 0 or 1.
#[derive(Clone, Copy)]
pub struct FlagBits {
    pub s: bool,
    pub z: bool,
    pub ac: bool,
    pub p: bool,
    pub cy: bool,
}

impl FlagBits {
    /// The flags that an operation leaves: what it leaves unknown is bit 0 of the choice.
    pub fn settled(flags: Flags, choice: u128) -> FlagBits
        ensures { untagged_flags result ≡ settled flags choice }
    {
        let chosen = choice_bit(choice, 0);
        FlagBits {
            s: flags.s.unwrap_or(chosen),
            z: flags.z.unwrap_or(chosen),
            ac: flags.ac.unwrap_or(chosen),
            p: flags.p.unwrap_or(chosen),
            cy: flags.cy.unwrap_or(chosen),
        }
    }

    /// S, Z, AC, P and CY are the five bits of a choice from bit `at` up.
    pub fn of_choice(choice: u128, at: u32) -> FlagBits
        requires { at + 4 < 128 }
        ensures { untagged_flags result ≡ chosen_flags choice at }
    {
        FlagBits {
            s: choice_bit(choice, at),
            z: choice_bit(choice, at + 1),
            ac: choice_bit(choice, at + 2),
            p: choice_bit(choice, at + 3),
            cy: choice_bit(choice, at + 4),
        }
    }

    /// The flags that POP PSW takes from a byte: its bits 7, 6, 4, 2 and 0.
    pub fn of_byte(byte: u8) -> FlagBits
        ensures { untagged_flags result ≡ flags_in_byte byte }
    {
        // all of them are known, so that nothing is chosen
        FlagBits::settled(Flags::of_byte(byte), 0)
    }

    /// The byte that PUSH PSW stores: its bits 1, 3 and 5 are bits 0, 1 and 2 of the choice.
    pub fn byte(self, choice: u128) -> u8
        ensures { result ≡ flag_byte (untagged_flags self) choice }
    {
        128 * u8::from(self.s)
            + 64 * u8::from(self.z)
            + 32 * u8::from(choice_bit(choice, 2))
            + 16 * u8::from(self.ac)
            + 8 * u8::from(choice_bit(choice, 1))
            + 4 * u8::from(self.p)
            + 2 * u8::from(choice_bit(choice, 0))
            + u8::from(self.cy)
    }

    /// Whether a condition holds.
    pub fn holds(self, condition: Cond) -> bool
        ensures { result ≡ holds (untagged_flags self) condition }
    {
        match condition {
            Cond::Nz => !self.z,
            Cond::Z => self.z,
            Cond::Nc => !self.cy,
            Cond::C => self.cy,
            Cond::Po => !self.p,
            Cond::Pe => self.p,
            Cond::P => !self.s,
            Cond::M => self.s,
        }
    }
}
