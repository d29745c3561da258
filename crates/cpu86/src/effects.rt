// What the families of instructions do (Intel 8086 Family User's Manual, "Instruction set").
ghost use Rattle.std.specs.Prelude.{◌≡◌, ◌+◌};
ghost use Rattle.i86.specs.Enc86.{reg_of_stack};
ghost use Rattle.cpu86.specs.ProcessorState.{state_of_86};
ghost use Rattle.cpu86.specs.State.{push, with16};
ghost use Rattle.cpu86.specs.Effect.{alu_al, or_cl, count8, count16, add16, xchg8, xchg16, rotate8, rotate16, daa, popped, with_pop, distance, jump_by, effect};

use crate::arithmetic::{
    add16_flags, adds_6, adjusted, alu_flags, alu_result, count8_flags, count8_result,
    count16_flags, count16_result, is_excepted, rotate8_carry, rotate8_result, rotate16_carry,
    rotate16_result,
};
use crate::flags::Flags;
use crate::processor::Processor;
use dialogue::choice_byte;
use i86::{AluOp, Count, Instr86, Jump, Operand8, Reg8, Reg16, Rotate, StackReg};

impl Processor {
    /// An operation on AL and a byte; CMP keeps AL.
    pub fn operate(&mut self, op: AluOp, byte: u8, choice: u128)
        ensures { state_of_86 self.new ≡ alu_al (state_of_86 self.old) op byte choice }
    {
        let al = self.registers.al;
        let carry = self.flags.cf;
        match op {
            AluOp::Cmp => {}
            _ => self.registers.al = alu_result(op, al, byte, carry),
        }
        self.flags = alu_flags(op, al, byte, carry, choice);
    }

    /// `OR CL,CL`.
    pub fn or_cl(&mut self, choice: u128)
        ensures { state_of_86 self.new ≡ or_cl (state_of_86 self.old) choice }
    {
        let cl = self.registers.cl;
        let carry = self.flags.cf;
        self.registers.cl = alu_result(AluOp::Or, cl, cl, carry);
        self.flags = alu_flags(AluOp::Or, cl, cl, carry, choice);
    }

    /// INC or DEC of a byte.
    pub fn count8(&mut self, count: Count, operand: Operand8)
        ensures { state_of_86 self.new ≡ count8 (state_of_86 self.old) count operand }
    {
        let byte = self.operand8(operand);
        let carry = self.flags.cf;
        self.set_operand8(operand, count8_result(count, byte));
        self.flags = count8_flags(count, byte, carry);
    }

    /// INC or DEC of a word register.
    pub fn count16(&mut self, count: Count, reg: Reg16)
        ensures { state_of_86 self.new ≡ count16 (state_of_86 self.old) count reg }
    {
        let word = self.reg16(reg);
        let carry = self.flags.cf;
        self.set16(reg, count16_result(count, word));
        self.flags = count16_flags(count, word, carry);
    }

    /// ADD of two word registers.
    pub fn add16(&mut self, to: Reg16, from: Reg16)
        ensures { state_of_86 self.new ≡ add16 (state_of_86 self.old) to from }
    {
        let x = self.reg16(to);
        let y = self.reg16(from);
        self.set16(to, x.wrapping_add(y));
        self.flags = add16_flags(x, y);
    }

    /// XCHG of two byte registers.
    pub fn xchg8(&mut self, first: Reg8, second: Reg8)
        ensures { state_of_86 self.new ≡ xchg8 (state_of_86 self.old) first second }
    {
        let x = self.reg8(first);
        let y = self.reg8(second);
        self.set8(first, y);
        self.set8(second, x);
    }

    /// XCHG of two word registers.
    pub fn xchg16(&mut self, first: Reg16, second: Reg16)
        ensures { state_of_86 self.new ≡ xchg16 (state_of_86 self.old) first second }
    {
        let x = self.reg16(first);
        let y = self.reg16(second);
        self.set16(first, y);
        self.set16(second, x);
    }

    /// A rotation of a byte register by one bit, which changes CF alone of the flags.
    pub fn rotate8(&mut self, rotate: Rotate, reg: Reg8)
        ensures { state_of_86 self.new ≡ rotate8 (state_of_86 self.old) rotate reg }
    {
        let byte = self.reg8(reg);
        let carry = self.flags.cf;
        self.set8(reg, rotate8_result(rotate, byte, carry));
        self.flags.cf = rotate8_carry(rotate, byte);
    }

    /// A rotation of a word register by one bit, which changes CF alone of the flags.
    pub fn rotate16(&mut self, rotate: Rotate, reg: Reg16)
        ensures { state_of_86 self.new ≡ rotate16 (state_of_86 self.old) rotate reg }
    {
        let word = self.reg16(reg);
        let carry = self.flags.cf;
        self.set16(reg, rotate16_result(rotate, word, carry));
        self.flags.cf = rotate16_carry(rotate, word);
    }

    /// Decimal adjustment of AL. At the excepted values AL is bits 0 to 7 of the choice, and the flags are bits 8 to 12.
    pub fn daa(&mut self, choice: u128)
        ensures { state_of_86 self.new ≡ daa (state_of_86 self.old) choice }
    {
        let al = self.registers.al;
        let Flags { af, cf, .. } = self.flags;
        if is_excepted(al, af, cf) {
            self.registers.al = choice_byte(choice, 0);
            self.flags = Flags::of_choice(choice, 8);
            return;
        }
        let (value, carry) = adjusted(al, af, cf);
        self.registers.al = value;
        self.flags = Flags::of_byte(value, adds_6(al, af), carry);
    }

    /// POP into a register.
    pub fn pop_into(&mut self, reg: StackReg)
        ensures { state_of_86 self.new ≡ with16 (with_pop (state_of_86 self.old)) (reg_of_stack reg) (popped (state_of_86 self.old)) }
    {
        let word = self.pop();
        self.set16(word_register(reg), word);
    }

    /// A conditional jump.
    pub fn jump_if(&mut self, jump: Jump, displacement: u8)
        ensures { state_of_86 self.new ≡ effect (Instr86.Jcc jump displacement) (state_of_86 self.old) 0 }
    {
        if self.flags.holds(jump) {
            self.ip = self.ip.wrapping_add(distance(displacement));
        }
    }

    /// A near call: pushes the offset of the next instruction, and jumps.
    pub fn call(&mut self, distance: u16)
        ensures { state_of_86 self.new ≡ jump_by (push (state_of_86 self.old) (state_of_86 self.old).ip) distance }
    {
        self.push(self.ip);
        self.ip = self.ip.wrapping_add(distance);
    }
}

/// The word register that PUSH or POP names.
pub fn word_register(reg: StackReg) -> Reg16
    ensures { result ≡ reg_of_stack reg }
{
    match reg {
        StackReg::Ax => Reg16::Ax,
        StackReg::Cx => Reg16::Cx,
        StackReg::Dx => Reg16::Dx,
        StackReg::Bx => Reg16::Bx,
        StackReg::Si => Reg16::Si,
    }
}

/// A signed byte as a distance modulo 65,536.
pub fn distance(displacement: u8) -> u16
    ensures { result ≡ distance displacement }
{
    if displacement < 128 {
        u16::from(displacement)
    } else {
        u16::from(displacement) + 0xFF00
    }
}
