// The registers (Intel 8080 Assembly Language Programming Manual, chapter 1).
ghost use Rattle.std.specs.Prelude.{◌≡◌, true};
ghost use Rattle.dialogue.specs.Fits.{answer_fits};
ghost use Rattle.cpu80.specs.State.{reg, with_reg};
ghost use Rattle.cpu80.specs.Call.{chosen_regs, answered};
ghost use Rattle.cpu80.specs.ProcessorState.{untagged_regs};

use dialogue::{AnswerKind, choice_byte};
use i80::Reg;

/// A byte in each register.
#[derive(Clone, Copy)]
pub struct Registers {
    pub a: u8,
    pub b: u8,
    pub c: u8,
    pub d: u8,
    pub e: u8,
    pub h: u8,
    pub l: u8,
}

impl Registers {
    /// Reads a register.
    pub fn get(&self, register: Reg) -> u8
        ensures { result ≡ reg (untagged_regs self.now) register }
    {
        match register {
            Reg::A => self.a,
            Reg::B => self.b,
            Reg::C => self.c,
            Reg::D => self.d,
            Reg::E => self.e,
            Reg::H => self.h,
            Reg::L => self.l,
        }
    }

    /// Writes a register.
    pub fn set(&mut self, register: Reg, byte: u8)
        ensures { untagged_regs self.new ≡ with_reg (untagged_regs self.old) register byte }
    {
        match register {
            Reg::A => self.a = byte,
            Reg::B => self.b = byte,
            Reg::C => self.c = byte,
            Reg::D => self.d = byte,
            Reg::E => self.e = byte,
            Reg::H => self.h = byte,
            Reg::L => self.l = byte,
        }
    }

    /// A is bits 0 to 7 of the choice; BC, DE and HL are the words from bits 16, 32 and 48 up.
    pub fn of_choice(choice: u128) -> Registers
        ensures { untagged_regs result ≡ chosen_regs choice }
    {
        Registers {
            a: choice_byte(choice, 0),
            c: choice_byte(choice, 16),
            b: choice_byte(choice, 24),
            e: choice_byte(choice, 32),
            d: choice_byte(choice, 40),
            l: choice_byte(choice, 48),
            h: choice_byte(choice, 56),
        }
    }

    /// The registers with a call's answer: a byte is in A and L; a word is in HL, with A equal to L and B to H.
    pub fn answered(self, kind: AnswerKind, answer: u16) -> Registers
        requires { answer_fits kind answer ≡ true }
        ensures { untagged_regs result ≡ answered kind answer (untagged_regs self) }
    {
        let high = (answer / 256) as u8;
        let low = (answer % 256) as u8;
        match kind {
            AnswerKind::NoAnswer => self,
            AnswerKind::ByteAnswer => Registers {
                a: low,
                l: low,
                ..self
            },
            AnswerKind::WordAnswer => Registers {
                a: low,
                l: low,
                b: high,
                h: high,
                ..self
            },
        }
    }
}
