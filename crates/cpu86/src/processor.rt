// The processor: what an instruction reads and writes.
ghost use Rattle.std.specs.Prelude.{◌≡◌};
ghost use Rattle.cpu86.specs.ProcessorState.{state_of_86, with_mem};
ghost use Rattle.dialogue.specs.ByteMemory.{put};
ghost use Rattle.cpu86.specs.State.{reg8, reg16, with16, pointed, operand8, with_operand8, operand16, push, put_word};
ghost use Rattle.cpu86.specs.Effect.{set8, popped, with_pop};

use crate::flags::Flags;
use crate::memory::Memory;
use crate::registers::Registers;
use dialogue::join;
use i86::{Operand8, Operand16, Ptr, Reg8, Reg16};

/// Registers, segments, flags and memory, and the DMA address that the system keeps.
#[derive(Drop)]
pub struct Processor {
    pub registers: Registers,
    pub sp: u16,
    pub si: u16,
    pub ip: u16,
    pub ds: u16,
    pub ss: u16,
    pub flags: Flags,
    pub memory: Memory,
    pub dma: u16,
}

impl Processor {
    /// Reads a byte register.
    pub fn reg8(&self, reg: Reg8) -> u8
        ensures { result ≡ reg8 (state_of_86 self.now).regs reg }
    {
        self.registers.get(reg)
    }

    /// Writes a byte register.
    pub fn set8(&mut self, reg: Reg8, byte: u8)
        ensures { state_of_86 self.new ≡ set8 (state_of_86 self.old) reg byte }
    {
        self.registers.set(reg, byte);
    }

    /// Reads a word register.
    pub fn reg16(&self, reg: Reg16) -> u16
        ensures { result ≡ reg16 (state_of_86 self.now) reg }
    {
        match reg {
            Reg16::Ax => join(self.registers.ah, self.registers.al),
            Reg16::Cx => join(self.registers.ch, self.registers.cl),
            Reg16::Dx => join(self.registers.dh, self.registers.dl),
            Reg16::Bx => join(self.registers.bh, self.registers.bl),
            Reg16::Sp => self.sp,
            Reg16::Si => self.si,
        }
    }

    /// Writes a word register.
    pub fn set16(&mut self, reg: Reg16, word: u16)
        ensures { state_of_86 self.new ≡ with16 (state_of_86 self.old) reg word }
    {
        let high = (word / 256) as u8;
        let low = (word % 256) as u8;
        match reg {
            Reg16::Ax => {
                self.registers.ah = high;
                self.registers.al = low;
            }
            Reg16::Cx => {
                self.registers.ch = high;
                self.registers.cl = low;
            }
            Reg16::Dx => {
                self.registers.dh = high;
                self.registers.dl = low;
            }
            Reg16::Bx => {
                self.registers.bh = high;
                self.registers.bl = low;
            }
            Reg16::Sp => self.sp = word,
            Reg16::Si => self.si = word,
        }
    }

    /// The address in BX or SI.
    pub fn pointed(&self, ptr: Ptr) -> u16
        ensures { result ≡ pointed (state_of_86 self.now) ptr }
    {
        match ptr {
            Ptr::Bx => join(self.registers.bh, self.registers.bl),
            Ptr::Si => self.si,
        }
    }

    /// Writes the byte at an address.
    pub fn set_byte(&mut self, at: u16, byte: u8)
        ensures { state_of_86 self.new ≡ with_mem (state_of_86 self.old) (put (state_of_86 self.old).mem at byte) }
    {
        self.memory.set(at, byte);
    }

    /// Writes the word at an address, low byte first.
    pub fn set_word(&mut self, at: u16, word: u16)
        ensures { state_of_86 self.new ≡ with_mem (state_of_86 self.old) (put_word (state_of_86 self.old).mem at word) }
    {
        self.memory.set_word(at, word);
    }

    /// Reads a byte operand.
    pub fn operand8(&self, operand: Operand8) -> u8
        ensures { result ≡ operand8 (state_of_86 self.now) operand }
    {
        match operand {
            Operand8::Reg(reg) => self.reg8(reg),
            Operand8::Mem(ptr) => self.memory.get(self.pointed(ptr)),
        }
    }

    /// Writes a byte operand.
    pub fn set_operand8(&mut self, operand: Operand8, byte: u8)
        ensures { state_of_86 self.new ≡ with_operand8 (state_of_86 self.old) operand byte }
    {
        match operand {
            Operand8::Reg(reg) => self.set8(reg, byte),
            Operand8::Mem(ptr) => {
                let at = self.pointed(ptr);
                self.memory.set(at, byte);
            }
        }
    }

    /// Reads a word operand.
    pub fn operand16(&self, operand: Operand16) -> u16
        ensures { result ≡ operand16 (state_of_86 self.now) operand }
    {
        match operand {
            Operand16::Reg(reg) => self.reg16(reg),
            Operand16::Direct(at) => self.memory.word(at),
        }
    }

    /// Pushes a word: SP goes down by 2 first, and wraps.
    pub fn push(&mut self, word: u16)
        ensures { state_of_86 self.new ≡ push (state_of_86 self.old) word }
    {
        self.sp = self.sp.wrapping_sub(2);
        self.memory.set_word(self.sp, word);
    }

    /// Pops a word: SP goes up by 2 afterwards, and wraps.
    pub fn pop(&mut self) -> u16
        ensures word { result ≡ popped (state_of_86 self.old) }
        ensures state { state_of_86 self.new ≡ with_pop (state_of_86 self.old) }
    {
        let word = self.memory.word(self.sp);
        self.sp = self.sp.wrapping_add(2);
        word
    }
}
