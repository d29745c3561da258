// The flags (Intel 8086 Family User's Manual, "Flags").
ghost use Rattle.std.specs.Prelude.{◌≡◌, ◌+◌, ◌<◌};
ghost use Rattle.base.specs.Arithmetic.{has_even_parity};
ghost use Rattle.cpu86.specs.Flags.{flags_by, flags_by_word, chosen_flags, flag_byte, flags_of_byte, jumps};
ghost use Rattle.cpu86.specs.ProcessorState.{flags_of_86};

use dialogue::choice_bit;
use i86::Jump;

/// The flags that the instructions of the texts set or read.
#[derive(Clone, Copy)]
pub struct Flags {
    pub sf: bool,
    pub zf: bool,
    pub af: bool,
    pub pf: bool,
    pub cf: bool,
}

impl Flags {
    /// The flags of a byte result, with this AF and CF.
    pub fn of_byte(value: u8, half: bool, carry: bool) -> Flags
        ensures { flags_of_86 result ≡ flags_by value half carry }
    {
        Flags {
            sf: value > 127,
            zf: value == 0,
            af: half,
            pf: is_even(value),
            cf: carry,
        }
    }

    /// The flags of a word result, with this AF and CF: SF and ZF are by the word, PF is by its low byte.
    pub fn of_word(value: u16, half: bool, carry: bool) -> Flags
        ensures { flags_of_86 result ≡ flags_by_word value half carry }
    {
        Flags {
            sf: value > 0x7FFF,
            zf: value == 0,
            af: half,
            pf: is_even((value % 256) as u8),
            cf: carry,
        }
    }

    /// SF, ZF, AF, PF and CF are the five bits of a choice from bit `at` up.
    pub fn of_choice(choice: u128, at: u32) -> Flags
        requires { at + 4 < 128 }
        ensures { flags_of_86 result ≡ chosen_flags choice at }
    {
        Flags {
            sf: choice_bit(choice, at),
            zf: choice_bit(choice, at + 1),
            af: choice_bit(choice, at + 2),
            pf: choice_bit(choice, at + 3),
            cf: choice_bit(choice, at + 4),
        }
    }

    /// The flags that SAHF takes from a byte.
    pub fn of_flag_byte(byte: u8) -> Flags
        ensures { flags_of_86 result ≡ flags_of_byte byte }
    {
        Flags {
            sf: byte / 128 % 2 == 1,
            zf: byte / 64 % 2 == 1,
            af: byte / 16 % 2 == 1,
            pf: byte / 4 % 2 == 1,
            cf: byte % 2 == 1,
        }
    }

    /// The byte that LAHF stores: its bits 1, 3 and 5 are undefined, and are bits 0, 1 and 2 of the choice.
    pub fn flag_byte(self, choice: u128) -> u8
        ensures { result ≡ flag_byte (flags_of_86 self) choice }
    {
        128 * u8::from(self.sf)
            + 64 * u8::from(self.zf)
            + 32 * u8::from(choice_bit(choice, 2))
            + 16 * u8::from(self.af)
            + 8 * u8::from(choice_bit(choice, 1))
            + 4 * u8::from(self.pf)
            + 2 * u8::from(choice_bit(choice, 0))
            + u8::from(self.cf)
    }

    /// Whether a conditional jump is taken.
    pub fn holds(self, jump: Jump) -> bool
        ensures { result ≡ jumps jump (flags_of_86 self) }
    {
        match jump {
            Jump::Jb => self.cf,
            Jump::Jnb => !self.cf,
            Jump::Jz => self.zf,
            Jump::Jnz => !self.zf,
            Jump::Js => self.sf,
            Jump::Jns => !self.sf,
            Jump::Jp => self.pf,
            Jump::Jnp => !self.pf,
        }
    }
}

// Whether the number of one bits is even.
fn is_even(byte: u8) -> bool
    ensures { result ≡ has_even_parity byte }
{
    byte.count_ones() % 2 == 0
}
