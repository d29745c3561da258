// What stands on the 8086 for the operands, operations and conditions of the 8080 (XLT86 User's Guide, "Register mapping").
ghost use Rattle.std.specs.Prelude.{◌≡◌};
ghost use Rattle.templates.specs.Template.{reg_of, byte_operand, word_register, op86_of, unless, label_of_goal};

use asm86_line_types::Label;
use cells::Cond;
use i80::{Goal, Op, Pair, Reg, Src};
use i86::{AluOp, Jump, Operand8, Ptr, Reg8, Reg16};

/// The byte register of a register.
pub fn reg_of(reg: Reg) -> Reg8
    ensures { result ≡ reg_of reg }
{
    match reg {
        Reg::A => Reg8::Al,
        Reg::B => Reg8::Ch,
        Reg::C => Reg8::Cl,
        Reg::D => Reg8::Dh,
        Reg::E => Reg8::Dl,
        Reg::H => Reg8::Bh,
        Reg::L => Reg8::Bl,
    }
}

/// The byte operand of a register or M.
pub fn operand_of(operand: Src) -> Operand8
    ensures { result ≡ byte_operand operand }
{
    match operand {
        Src::Reg(reg) => Operand8::Reg(reg_of(reg)),
        Src::Mem => Operand8::Mem(Ptr::Bx),
    }
}

/// The word register of a pair.
pub fn pair_of(pair: Pair) -> Reg16
    ensures { result ≡ word_register pair }
{
    match pair {
        Pair::B => Reg16::Cx,
        Pair::D => Reg16::Dx,
        Pair::H => Reg16::Bx,
        Pair::Sp => Reg16::Sp,
    }
}

/// The operation on AL of an operation on A.
pub fn op_of(op: Op) -> AluOp
    ensures { result ≡ op86_of op }
{
    match op {
        Op::Add => AluOp::Add,
        Op::Adc => AluOp::Adc,
        Op::Sub => AluOp::Sub,
        Op::Sbb => AluOp::Sbb,
        Op::Ana => AluOp::And,
        Op::Xra => AluOp::Xor,
        Op::Ora => AluOp::Or,
        Op::Cmp => AluOp::Cmp,
    }
}

/// The jump that is taken where the condition does not hold.
pub fn unless(cond: Cond) -> Jump
    ensures { result ≡ unless cond }
{
    match cond {
        Cond::Nz => Jump::Jz,
        Cond::Z => Jump::Jnz,
        Cond::Nc => Jump::Jb,
        Cond::C => Jump::Jnb,
        Cond::Po => Jump::Jp,
        Cond::Pe => Jump::Jnp,
        Cond::P => Jump::Js,
        Cond::M => Jump::Jns,
    }
}

/// The label of a target.
pub fn label_of(goal: Goal) -> Label
    ensures { result ≡ label_of_goal goal }
{
    match goal {
        Goal::At(at) => Label::At(at),
        Goal::Boot => Label::End,
        Goal::Bdos => Label::Sys,
    }
}
