// The byte registers (Intel 8086 Family User's Manual, "Registers").
ghost use Rattle.std.specs.Prelude.{◌≡◌};
ghost use Rattle.cpu86.specs.ProcessorState.{regs_of_86};
ghost use Rattle.cpu86.specs.State.{reg8, with8};

use i86::Reg8;

/// The byte registers; AX, CX, DX and BX are pairs of them.
#[derive(Clone, Copy)]
pub struct Registers {
    pub al: u8,
    pub ah: u8,
    pub cl: u8,
    pub ch: u8,
    pub dl: u8,
    pub dh: u8,
    pub bl: u8,
    pub bh: u8,
}

impl Registers {
    /// Reads a register.
    pub fn get(&self, reg: Reg8) -> u8
        ensures { result ≡ reg8 (regs_of_86 self.now) reg }
    {
        match reg {
            Reg8::Al => self.al,
            Reg8::Cl => self.cl,
            Reg8::Dl => self.dl,
            Reg8::Bl => self.bl,
            Reg8::Ah => self.ah,
            Reg8::Ch => self.ch,
            Reg8::Dh => self.dh,
            Reg8::Bh => self.bh,
        }
    }

    /// Writes a register.
    pub fn set(&mut self, reg: Reg8, byte: u8)
        ensures { regs_of_86 self.new ≡ with8 (regs_of_86 self.old) reg byte }
    {
        match reg {
            Reg8::Al => self.al = byte,
            Reg8::Cl => self.cl = byte,
            Reg8::Dl => self.dl = byte,
            Reg8::Bl => self.bl = byte,
            Reg8::Ah => self.ah = byte,
            Reg8::Ch => self.ch = byte,
            Reg8::Dh => self.dh = byte,
            Reg8::Bh => self.bh = byte,
        }
    }
}
