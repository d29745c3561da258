// The table of instructions (Intel 8086 Family User's Manual, "Instruction set").
ghost use Rattle.std.specs.Prelude.{◌≡◌};
ghost use Rattle.cpu86.specs.ProcessorState.{state_of_86};
ghost use Rattle.cpu86.specs.Effect.{effect};

use crate::effects::{distance, word_register};
use crate::flags::Flags;
use crate::processor::Processor;
use i86::{Instr86, Operand8, Reg16};

impl Processor {
    /// What an instruction does, where `ip` has the offset of the next one. INT 224, IN and OUT do nothing here: what they ask is
    /// asked elsewhere.
    pub fn execute(&mut self, instr: Instr86, choice: u128)
        ensures { state_of_86 self.new ≡ effect instr (state_of_86 self.old) choice }
    {
        match instr {
            Instr86::MovReg8(to, from) => self.set8(to, self.operand8(from)),
            Instr86::MovMem8(ptr, from) => self.set_operand8(Operand8::Mem(ptr), self.reg8(from)),
            Instr86::MovAlDirect(at) => self.registers.al = self.memory.get(at),
            Instr86::MovDirectAl(at) => self.memory.set(at, self.registers.al),
            Instr86::MovNum8(to, byte) => self.set8(to, byte),
            Instr86::MovNum16(to, word) => self.set16(to, word),
            Instr86::MovMemNum(ptr, byte) => self.set_operand8(Operand8::Mem(ptr), byte),
            Instr86::MovReg16(to, from) => self.set16(to, self.operand16(from)),
            Instr86::MovDirect16(at, from) => self.set_word(at, self.reg16(from)),
            Instr86::MovAxDs => self.set16(Reg16::Ax, self.ds),
            Instr86::MovSsAx => self.ss = self.reg16(Reg16::Ax),
            Instr86::Alu(op, operand) => self.operate(op, self.operand8(operand), choice),
            Instr86::AluNum(op, byte) => self.operate(op, byte, choice),
            Instr86::OrClCl => self.or_cl(choice),
            Instr86::Add16(to, from) => self.add16(to, from),
            Instr86::Count8(count, operand) => self.count8(count, operand),
            Instr86::Count16(count, reg) => self.count16(count, reg),
            Instr86::Push(reg) => self.push(self.reg16(word_register(reg))),
            Instr86::Pop(reg) => self.pop_into(reg),
            Instr86::Xchg8(first, second) => self.xchg8(first, second),
            Instr86::Xchg16(first, second) => self.xchg16(first, second),
            Instr86::Rotate8(rotate, reg) => self.rotate8(rotate, reg),
            Instr86::Rotate16(rotate, reg) => self.rotate16(rotate, reg),
            Instr86::Not8(reg) => self.set8(reg, 255 - self.reg8(reg)),
            Instr86::Daa => self.daa(choice),
            Instr86::Sahf => self.flags = Flags::of_flag_byte(self.registers.ah),
            Instr86::Lahf => self.registers.ah = self.flags.flag_byte(choice),
            Instr86::Cmc => self.flags.cf = !self.flags.cf,
            Instr86::Stc => self.flags.cf = true,
            Instr86::Jcc(jump, displacement) => self.jump_if(jump, displacement),
            Instr86::JmpNear(by) => self.ip = self.ip.wrapping_add(by),
            Instr86::JmpShort(displacement) => self.ip = self
                .ip
                .wrapping_add(distance(displacement)),
            Instr86::JmpBx => self.ip = self.reg16(Reg16::Bx),
            Instr86::CallNear(by) => self.call(by),
            Instr86::Ret => self.ip = self.pop(),
            Instr86::Nop | Instr86::Int224 | Instr86::InAl(_) | Instr86::OutAl(_) => {}
        }
    }
}
