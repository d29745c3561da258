// The start of a program.
ghost use Rattle.std.specs.Prelude.{◌≡◌, ◌/◌, ◌%◌};
ghost use Rattle.cpu86.specs.ProcessorState.{regs_of_86};

use crate::registers::Registers;

/// What the registers, segments and flags hold at the start. Bits 0 to 4 of `flags` are SF, ZF, AF, PF and CF; its other bits
/// are not looked at.
#[derive(Clone, Copy)]
pub struct Start86 {
    pub ax: u16,
    pub cx: u16,
    pub dx: u16,
    pub bx: u16,
    pub sp: u16,
    pub si: u16,
    pub ds: u16,
    pub ss: u16,
    pub flags: u8,
}

impl Start86 {
    /// The byte registers.
    pub fn registers(self) -> Registers
        ensures { regs_of_86 result ≡ record { al = self.ax % 256; ah = self.ax / 256; cl = self.cx % 256; ch = self.cx / 256; dl = self.dx % 256; dh = self.dx / 256; bl = self.bx % 256; bh = self.bx / 256 } }
    {
        Registers {
            al: low_byte(self.ax),
            ah: high_byte(self.ax),
            cl: low_byte(self.cx),
            ch: high_byte(self.cx),
            dl: low_byte(self.dx),
            dh: high_byte(self.dx),
            bl: low_byte(self.bx),
            bh: high_byte(self.bx),
        }
    }
}

fn low_byte(word: u16) -> u8
    ensures { result ≡ word % 256 }
{
    (word % 256) as u8
}

fn high_byte(word: u16) -> u8
    ensures { result ≡ word / 256 }
{
    (word / 256) as u8
}
