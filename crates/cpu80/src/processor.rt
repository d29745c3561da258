// The processor: what an instruction reads and writes.
ghost use Rattle.std.specs.Prelude.{◌≡◌};
ghost use Rattle.cpu80.specs.State.{pair_word, with_word, with_hl};
ghost use Rattle.cpu80.specs.Effect.{source, into};
ghost use Rattle.cpu80.specs.ProcessorState.{untagged_state};

use crate::flags::FlagBits;
use crate::memory::Memory;
use crate::registers::Registers;
use cells::Place;
use dialogue::join;
use i80::{Pair, Src};

/// Registers, flags and memory, the place that comes next, and the DMA address that the system keeps. EXIT comes next where the
/// return of a jump to 5 has gone to address 0.
#[derive(Drop)]
pub struct Processor {
    pub registers: Registers,
    pub flags: FlagBits,
    pub sp: u16,
    pub memory: Memory,
    pub place: Place,
    pub dma: u16,
}

impl Processor {
    /// The word in a pair.
    pub fn pair(&self, pair: Pair) -> u16
        ensures { result ≡ pair_word (untagged_state self.now) pair }
    {
        match pair {
            Pair::B => join(self.registers.b, self.registers.c),
            Pair::D => join(self.registers.d, self.registers.e),
            Pair::H => join(self.registers.h, self.registers.l),
            Pair::Sp => self.sp,
        }
    }

    /// Writes a word into a pair.
    pub fn set_pair(&mut self, pair: Pair, word: u16)
        ensures { untagged_state self.new ≡ with_word (untagged_state self.old) pair word }
    {
        let high = (word / 256) as u8;
        let low = (word % 256) as u8;
        match pair {
            Pair::B => {
                self.registers.b = high;
                self.registers.c = low;
            }
            Pair::D => {
                self.registers.d = high;
                self.registers.e = low;
            }
            Pair::H => {
                self.registers.h = high;
                self.registers.l = low;
            }
            Pair::Sp => self.sp = word,
        }
    }

    /// Writes two bytes into HL.
    pub fn set_hl(&mut self, high: u8, low: u8)
        ensures { untagged_state self.new ≡ with_hl (untagged_state self.old) high low }
    {
        self.registers.h = high;
        self.registers.l = low;
    }

    /// The byte of a register or of M.
    pub fn source(&self, from: Src) -> u8
        ensures { result ≡ source (untagged_state self.now) from }
    {
        match from {
            Src::Reg(register) => self.registers.get(register),
            Src::Mem => self.memory.get(self.pair(Pair::H)),
        }
    }

    /// Writes a byte into a register or into M.
    pub fn put_into(&mut self, to: Src, byte: u8)
        ensures { untagged_state self.new ≡ into (untagged_state self.old) to byte }
    {
        match to {
            Src::Reg(register) => self.registers.set(register, byte),
            Src::Mem => {
                let at = self.pair(Pair::H);
                self.memory.set(at, byte);
            }
        }
    }
}
