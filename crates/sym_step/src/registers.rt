// The 8080's name of an operation, and the word register that PUSH and POP name.

ghost use Rattle.std.specs.Prelude.{◌≡◌};
ghost use Rattle.i86.specs.Enc86.{reg_of_stack};
ghost use Rattle.sym_block_def.specs.Symbolic86.{op_of};

use i80::Op;
use i86::{AluOp, Reg16, StackReg};

pub fn stack_register(reg: StackReg) -> Reg16
    ensures { result ≡ reg_of_stack reg }
{
    match reg {
        StackReg::Ax => Reg16::Ax,
        StackReg::Cx => Reg16::Cx,
        StackReg::Dx => Reg16::Dx,
        StackReg::Bx => Reg16::Bx,
        StackReg::Si => Reg16::Si,
    }
}

/// The operation of the 8080.
pub fn op_of(op: AluOp) -> Op
    ensures { result ≡ op_of op }
{
    match op {
        AluOp::Add => Op::Add,
        AluOp::Or => Op::Ora,
        AluOp::Adc => Op::Adc,
        AluOp::Sbb => Op::Sbb,
        AluOp::And => Op::Ana,
        AluOp::Sub => Op::Sub,
        AluOp::Xor => Op::Xra,
        AluOp::Cmp => Op::Cmp,
    }
}
