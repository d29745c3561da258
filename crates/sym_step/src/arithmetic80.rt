// The arithmetic of the 8080.

ghost use Rattle.std.specs.Prelude.{◌≡◌, ◌⊎◌, ◌≤◌, length};
ghost use Rattle.i80.specs.declared.Op.{Op};
ghost use Rattle.i80.specs.declared.Instr80.{Instr80};
ghost use Rattle.sym_block_def.specs.Block80.{effect80, count_by};
ghost use Rattle.sym_micro.specs.Machine.{as80};
ghost use Rattle.sym_step.specs.Arithmetic.{arithmetic80};
ghost use Rattle.sym_micro.specs.Stands.{machine_of, IsReady, GoesOn};

use i80::{Instr80, Op, Pair, Reg, Src};
use i86::Rotate;
use sym_micro::{
    ByteSlot, Run, Wide, WordValue, add_number, add_word, adjust, clear, complement,
    complement_carry, count_memory, count_register, operate, operate_memory, operate_number,
    rotate, set_carry,
};
use sym_terms::Terms;

/// What the arithmetic of an instruction does; another than these does nothing here. None only where the terms had no room for a node more.
pub fn arithmetic(terms: &mut Terms, run: &mut Run, instr: Instr80) -> Option<()>
    requires ready { IsReady terms.old run.old }
    requires room { length run.old.actions.items ≤ 510 }
    ensures { GoesOn terms.old terms.new run.old run.new 24 2 (λ m. as80 m ≡ arithmetic80 (as80 (machine_of terms.old run.old)) instr) result }
{
    let accumulator = ByteSlot::Of80(Reg::A);
    match instr {
        Instr80::Alu(op, from) => operate_on(terms, run, op, from),
        Instr80::AluI(op, n) => operate_number(terms, run, op, n),
        Instr80::Inr(on) => count(terms, run, Op::Add, on),
        Instr80::Dcr(on) => count(terms, run, Op::Sub, on),
        Instr80::Inx(pair) => add_number(terms, run, Wide::Of80(pair), 1),
        Instr80::Dcx(pair) => add_number(terms, run, Wide::Of80(pair), 0xFFFF),
        Instr80::Dad(pair) => add_word(terms, run, Wide::Of80(Pair::H), Wide::Of80(pair)),
        Instr80::Daa => adjust(terms, run),
        Instr80::Cma => complement(terms, run, accumulator),
        Instr80::Stc => set_carry(terms, run),
        Instr80::Cmc => complement_carry(terms, run),
        Instr80::Rlc => rotate(terms, run, Rotate::Rol, accumulator),
        Instr80::Rrc => rotate(terms, run, Rotate::Ror, accumulator),
        Instr80::Ral => rotate(terms, run, Rotate::Rcl, accumulator),
        Instr80::Rar => rotate(terms, run, Rotate::Rcr, accumulator),
        _ => Some(()),
    }
}

// An operation on A and a source.
fn operate_on(terms: &mut Terms, run: &mut Run, op: Op, from: Src) -> Option<()>
    requires ready { IsReady terms.old run.old }
    requires room { length run.old.actions.items ≤ 510 }
    ensures { GoesOn terms.old terms.new run.old run.new 24 2 (λ m. as80 m ≡ effect80 (as80 (machine_of terms.old run.old)) (Instr80.Alu op from)) result }
{
    if op.gives_zero(from) {
        return clear(terms, run);
    }
    match from {
        Src::Reg(reg) => operate(terms, run, op, ByteSlot::Of80(reg)),
        Src::Mem => operate_memory(terms, run, op, WordValue::Of(Wide::Of80(Pair::H))),
    }
}

// INR and DCR, which add and subtract 1.
fn count(terms: &mut Terms, run: &mut Run, op: Op, on: Src) -> Option<()>
    requires counts { (op ≡ Op.Add) ⊎ (op ≡ Op.Sub) }
    requires ready { IsReady terms.old run.old }
    requires room { length run.old.actions.items ≤ 510 }
    ensures { GoesOn terms.old terms.new run.old run.new 24 2 (λ m. as80 m ≡ count_by (as80 (machine_of terms.old run.old)) op on) result }
{
    match on {
        Src::Reg(reg) => count_register(terms, run, op, ByteSlot::Of80(reg)),
        Src::Mem => count_memory(terms, run, op, WordValue::Of(Wide::Of80(Pair::H))),
    }
}
