// One instruction of the 8086.

ghost use Rattle.std.specs.Prelude.{◌≡◌, ◌≤◌, length};
ghost use Rattle.sym_block_def.specs.Symbolic86.{effect86, with_reg16, offset_term};
ghost use Rattle.sym_micro.specs.Machine.{as86};
ghost use Rattle.sym_micro.specs.Stands.{machine_of, IsReady, GoesOn};

use crate::stack86::past_moves;
use asm86_line_types::Label;
use cells::Place;
use i86::{Instr86, Operand8, Operand16, Reg8, Reg16};
use sym_micro::{
    ByteSlot, ByteValue, Run, Wide, WordValue, load_byte, load_word, move_byte, move_code,
    move_word, store_byte, store_number, store_word,
};
use sym_terms::Terms;

/// What an instruction does beside where it goes. None only where the terms had no room for a node more.
pub fn step86(terms: &mut Terms, run: &mut Run, instr: Instr86) -> Option<()>
    requires ready { IsReady terms.old run.old }
    requires room { length run.old.actions.items ≤ 510 }
    ensures { GoesOn terms.old terms.new run.old run.new 24 2 (λ m. as86 m ≡ effect86 (as86 (machine_of terms.old run.old)) instr) result }
{
    let al = ByteSlot::Of86(Reg8::Al);
    match instr {
        Instr86::MovReg8(to, from) => match from {
            Operand8::Reg(reg) => move_byte(
                terms,
                run,
                ByteSlot::Of86(to),
                ByteValue::Of(ByteSlot::Of86(reg)),
            ),
            Operand8::Mem(at) => load_byte(terms, run, ByteSlot::Of86(to), WordValue::Pointed(at)),
        },
        Instr86::MovMem8(at, from) => store_byte(
            terms,
            run,
            WordValue::Pointed(at),
            ByteSlot::Of86(from),
        ),
        Instr86::MovAlDirect(a) => load_byte(terms, run, al, WordValue::Number(a)),
        Instr86::MovDirectAl(a) => store_byte(terms, run, WordValue::Number(a), al),
        Instr86::MovNum8(to, n) => move_byte(terms, run, ByteSlot::Of86(to), ByteValue::Number(n)),
        Instr86::MovNum16(to, w) => move_word(terms, run, Wide::Of86(to), WordValue::Number(w)),
        Instr86::MovMemNum(at, n) => store_number(terms, run, WordValue::Pointed(at), n),
        Instr86::MovReg16(to, from) => match from {
            Operand16::Reg(reg) => move_word(
                terms,
                run,
                Wide::Of86(to),
                WordValue::Of(Wide::Of86(reg)),
            ),
            Operand16::Direct(a) => load_word(terms, run, Wide::Of86(to), WordValue::Number(a)),
        },
        Instr86::MovDirect16(a, from) => store_word(terms, run, a, Wide::Of86(from)),
        Instr86::MovAxDs => move_word(terms, run, Wide::Of86(Reg16::Ax), WordValue::Unknown),
        _ => past_moves(terms, run, instr),
    }
}

/// `MOV r16,OFFSET label`. None only where the terms had no room for a node more.
pub fn offset(terms: &mut Terms, run: &mut Run, to: Reg16, label: Label) -> Option<()>
    requires ready { IsReady terms.old run.old }
    requires room { length run.old.actions.items ≤ 510 }
    ensures { GoesOn terms.old terms.new run.old run.new 24 2 (λ m. as86 m ≡ with_reg16 (as86 (machine_of terms.old run.old)) to (offset_term label)) result }
{
    match label {
        Label::At(a) => move_code(terms, run, Wide::Of86(to), Place::At(a)),
        Label::End => move_code(terms, run, Wide::Of86(to), Place::Exit),
        Label::Skip(_) | Label::User(_) | Label::Sys => move_word(
            terms,
            run,
            Wide::Of86(to),
            WordValue::Unknown,
        ),
    }
}
