// The arithmetic of the 8086.

ghost use Rattle.std.specs.Prelude.{◌≡◌, ◌≤◌, length};
ghost use Rattle.i86.specs.declared.Instr86.{Instr86};
ghost use Rattle.sym_block_def.specs.Symbolic86.{effect86, clears_al};
ghost use Rattle.sym_micro.specs.Machine.{as86};
ghost use Rattle.sym_step.specs.Arithmetic.{arithmetic86};
ghost use Rattle.sym_micro.specs.Stands.{machine_of, IsReady, GoesOn};

use crate::registers::op_of;
use i80::Op;
use i86::{AluOp, Count, Instr86, Operand8, Reg8, Reg16, Rotate};
use sym_micro::{
    ByteSlot, ByteValue, FlagSet, FlagSlot, FlagValue, Micro, Run, Wide, WordSlot, WordValue,
    add_number, add_word, adjust, clear, complement, complement_carry, count_memory,
    count_register, operate, operate_memory, operate_number, perform, perform_each, rotate,
    set_carry,
};
use sym_terms::Terms;

// `OR CL,CL`.
const OR_CL: [Micro; 3] = [
    Micro::Operate(Op::Ora, ByteSlot::Of86(Reg8::Cl), ByteSlot::Of86(Reg8::Cl)),
    Micro::Byte(ByteSlot::Of86(Reg8::Cl), ByteValue::Result),
    Micro::Flags(FlagSet::All, FlagValue::OfResult),
];

// Nothing is known of the flags but CF.
const LOST_FLAGS: [Micro; 1] = [Micro::Flags(FlagSet::AllButCy, FlagValue::Unknown)];

/// What the arithmetic of an instruction does; another than these does nothing here. None only where the terms had no room for a node more.
pub fn arithmetic(terms: &mut Terms, run: &mut Run, instr: Instr86) -> Option<()>
    requires ready { IsReady terms.old run.old }
    requires room { length run.old.actions.items ≤ 510 }
    ensures { GoesOn terms.old terms.new run.old run.new 24 2 (λ m. as86 m ≡ arithmetic86 (as86 (machine_of terms.old run.old)) instr) result }
{
    match instr {
        Instr86::Alu(op, from) => operate_on(terms, run, op, from),
        Instr86::AluNum(op, n) => operate_number(terms, run, op_of(op), n),
        Instr86::OrClCl => perform(terms, run, &OR_CL),
        Instr86::Add16(to, from) => add_words(terms, run, to, from),
        Instr86::Count8(by, on) => count(terms, run, by, on),
        Instr86::Count16(by, on) => count_word(terms, run, by, on),
        Instr86::Rotate8(kind, on) => rotate(terms, run, kind, ByteSlot::Of86(on)),
        Instr86::Rotate16(kind, on) => rotate_word(terms, run, kind, on),
        Instr86::Not8(on) => complement(terms, run, ByteSlot::Of86(on)),
        Instr86::Daa => adjust(terms, run),
        Instr86::Cmc => complement_carry(terms, run),
        Instr86::Stc => set_carry(terms, run),
        _ => Some(()),
    }
}

fn operate_on(terms: &mut Terms, run: &mut Run, op: AluOp, from: Operand8) -> Option<()>
    requires ready { IsReady terms.old run.old }
    requires room { length run.old.actions.items ≤ 510 }
    ensures { GoesOn terms.old terms.new run.old run.new 24 2 (λ m. as86 m ≡ effect86 (as86 (machine_of terms.old run.old)) (Instr86.Alu op from)) result }
{
    if gives_zero(op, from) {
        return clear(terms, run);
    }
    let kind = op_of(op);
    match from {
        Operand8::Reg(reg) => operate(terms, run, kind, ByteSlot::Of86(reg)),
        Operand8::Mem(at) => operate_memory(terms, run, kind, WordValue::Pointed(at)),
    }
}

// XOR AL,AL and SUB AL,AL give 0, whatever AL holds.
fn gives_zero(op: AluOp, from: Operand8) -> bool
    ensures { result ≡ clears_al op from }
{
    matches!(
        (op, from),
        (AluOp::Xor | AluOp::Sub, Operand8::Reg(Reg8::Al))
    )
}

fn count(terms: &mut Terms, run: &mut Run, by: Count, on: Operand8) -> Option<()>
    requires ready { IsReady terms.old run.old }
    requires room { length run.old.actions.items ≤ 510 }
    ensures { GoesOn terms.old terms.new run.old run.new 24 2 (λ m. as86 m ≡ effect86 (as86 (machine_of terms.old run.old)) (Instr86.Count8 by on)) result }
{
    let op = match by {
        Count::Inc => Op::Add,
        Count::Dec => Op::Sub,
    };
    match on {
        Operand8::Reg(reg) => count_register(terms, run, op, ByteSlot::Of86(reg)),
        Operand8::Mem(at) => count_memory(terms, run, op, WordValue::Pointed(at)),
    }
}

fn count_word(terms: &mut Terms, run: &mut Run, by: Count, on: Reg16) -> Option<()>
    requires ready { IsReady terms.old run.old }
    requires room { length run.old.actions.items ≤ 510 }
    ensures { GoesOn terms.old terms.new run.old run.new 24 2 (λ m. as86 m ≡ effect86 (as86 (machine_of terms.old run.old)) (Instr86.Count16 by on)) result }
{
    let n = match by {
        Count::Inc => 1,
        Count::Dec => 0xFFFF,
    };
    add_number(terms, run, Wide::Of86(on), n)?;
    perform_each(terms, run, &LOST_FLAGS)
}

// ROL and ROR leave a word and CF of which nothing is known, RCR and RCL the word that the definition has.
fn rotate_word(terms: &mut Terms, run: &mut Run, kind: Rotate, on: Reg16) -> Option<()>
    requires ready { IsReady terms.old run.old }
    requires room { length run.old.actions.items ≤ 510 }
    ensures { GoesOn terms.old terms.new run.old run.new 24 2 (λ m. as86 m ≡ effect86 (as86 (machine_of terms.old run.old)) (Instr86.Rotate16 kind on)) result }
{
    match kind {
        Rotate::Rcl => perform(
            terms,
            run,
            &[
                Micro::Word(WordSlot::W, WordValue::Of(Wide::Of86(on))),
                Micro::Word(WordSlot::X, WordValue::Unknown),
                Micro::Put(Wide::Of86(on), WordSlot::X),
                Micro::Flag(FlagSlot::Cy, FlagValue::BroughtBack(WordSlot::W)),
            ],
        ),
        Rotate::Rcr => perform(
            terms,
            run,
            &[
                Micro::Word(WordSlot::W, WordValue::Turned),
                Micro::Put(Wide::Of86(on), WordSlot::W),
                Micro::Flag(FlagSlot::Cy, FlagValue::Unknown),
            ],
        ),
        Rotate::Rol | Rotate::Ror => perform(
            terms,
            run,
            &[
                Micro::Word(WordSlot::W, WordValue::Unknown),
                Micro::Put(Wide::Of86(on), WordSlot::W),
                Micro::Flag(FlagSlot::Cy, FlagValue::Unknown),
            ],
        ),
    }
}

// `ADD r16,r16`.
fn add_words(terms: &mut Terms, run: &mut Run, to: Reg16, from: Reg16) -> Option<()>
    requires ready { IsReady terms.old run.old }
    requires room { length run.old.actions.items ≤ 510 }
    ensures { GoesOn terms.old terms.new run.old run.new 24 2 (λ m. as86 m ≡ effect86 (as86 (machine_of terms.old run.old)) (Instr86.Add16 to from)) result }
{
    add_word(terms, run, Wide::Of86(to), Wide::Of86(from))?;
    perform_each(terms, run, &LOST_FLAGS)
}
