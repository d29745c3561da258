// Exchanges and the stack of the 8080.

ghost use Rattle.std.specs.Prelude.{◌≡◌, ◌≤◌, length};
ghost use Rattle.i80.specs.declared.Instr80.{Instr80};
ghost use Rattle.sym_terms.specs.Term.{Num};
ghost use Rattle.sym_terms.specs.Making.{sum16};
ghost use Rattle.sym_block_def.specs.Block80.{with_pair, load16, next_word, effect80};
ghost use Rattle.sym_micro.specs.Machine.{as80};
ghost use Rattle.sym_step.specs.Arithmetic.{past_moves80};
ghost use Rattle.sym_micro.specs.Stands.{machine_of, IsReady, GoesOn};

use crate::arithmetic80::arithmetic;
use i80::{Instr80, Pair, Reg, StackPair};
use sym_micro::{
    ByteSlot, ByteValue, FlagSet, FlagValue, Micro, Run, Wide, WordSlot, WordValue, move_word,
    perform, push,
};
use sym_terms::Terms;

// XCHG.
const EXCHANGE: [Micro; 6] = [
    Micro::Byte(ByteSlot::T, ByteValue::Of(ByteSlot::Of80(Reg::D))),
    Micro::Byte(ByteSlot::U, ByteValue::Of(ByteSlot::Of80(Reg::E))),
    Micro::Byte(
        ByteSlot::Of80(Reg::D),
        ByteValue::Of(ByteSlot::Of80(Reg::H)),
    ),
    Micro::Byte(
        ByteSlot::Of80(Reg::E),
        ByteValue::Of(ByteSlot::Of80(Reg::L)),
    ),
    Micro::Byte(ByteSlot::Of80(Reg::H), ByteValue::Of(ByteSlot::T)),
    Micro::Byte(ByteSlot::Of80(Reg::L), ByteValue::Of(ByteSlot::U)),
];

// XTHL.
const EXCHANGE_TOP: [Micro; 11] = [
    Micro::Word(WordSlot::V, WordValue::Of(Wide::Of80(Pair::Sp))),
    Micro::Word(WordSlot::X, WordValue::Loaded),
    Micro::Load16(WordSlot::V),
    Micro::Word(WordSlot::W, WordValue::Number(2)),
    Micro::Sum(WordSlot::V, WordSlot::V, WordSlot::W),
    Micro::Word(WordSlot::W, WordValue::Number(0xFFFE)),
    Micro::Sum(WordSlot::V, WordSlot::V, WordSlot::W),
    Micro::Put(Wide::Of80(Pair::Sp), WordSlot::V),
    Micro::Word(WordSlot::W, WordValue::Of(Wide::Of80(Pair::H))),
    Micro::Store16(WordSlot::V, WordSlot::W),
    Micro::Put(Wide::Of80(Pair::H), WordSlot::X),
];

// PUSH PSW.
const PUSH_PSW: [Micro; 7] = [
    Micro::Word(WordSlot::W, WordValue::Of(Wide::Of80(Pair::Sp))),
    Micro::Word(WordSlot::V, WordValue::Number(0xFFFE)),
    Micro::Sum(WordSlot::W, WordSlot::W, WordSlot::V),
    Micro::Put(Wide::Of80(Pair::Sp), WordSlot::W),
    Micro::FlagByte(ByteSlot::T),
    Micro::Word(
        WordSlot::V,
        WordValue::Join(ByteSlot::Of80(Reg::A), ByteSlot::T),
    ),
    Micro::Store16(WordSlot::W, WordSlot::V),
];

// POP PSW.
const POP_PSW: [Micro; 9] = [
    Micro::Word(WordSlot::W, WordValue::Of(Wide::Of80(Pair::Sp))),
    Micro::Word(WordSlot::V, WordValue::Loaded),
    Micro::Load16(WordSlot::W),
    Micro::Byte(ByteSlot::Of80(Reg::A), ByteValue::Half(WordSlot::V, true)),
    Micro::Byte(ByteSlot::T, ByteValue::Half(WordSlot::V, false)),
    Micro::Flags(FlagSet::All, FlagValue::InByte(ByteSlot::T)),
    Micro::Word(WordSlot::V, WordValue::Number(2)),
    Micro::Sum(WordSlot::W, WordSlot::W, WordSlot::V),
    Micro::Put(Wide::Of80(Pair::Sp), WordSlot::W),
];

/// What an instruction does that is no move. None only where the terms had no room for a node more.
pub fn past_moves(terms: &mut Terms, run: &mut Run, instr: Instr80) -> Option<()>
    requires ready { IsReady terms.old run.old }
    requires room { length run.old.actions.items ≤ 510 }
    ensures { GoesOn terms.old terms.new run.old run.new 24 2 (λ m. as80 m ≡ past_moves80 (as80 (machine_of terms.old run.old)) instr) result }
{
    match instr {
        Instr80::Xchg => perform(terms, run, &EXCHANGE),
        Instr80::Xthl => perform(terms, run, &EXCHANGE_TOP),
        Instr80::Sphl => move_word(
            terms,
            run,
            Wide::Of80(Pair::Sp),
            WordValue::Of(Wide::Of80(Pair::H)),
        ),
        Instr80::Push(pair) => push_on(terms, run, pair),
        Instr80::Pop(pair) => pop_off(terms, run, pair),
        _ => arithmetic(terms, run, instr),
    }
}

// PUSH.
fn push_on(terms: &mut Terms, run: &mut Run, pair: StackPair) -> Option<()>
    requires ready { IsReady terms.old run.old }
    requires room { length run.old.actions.items ≤ 510 }
    ensures { GoesOn terms.old terms.new run.old run.new 24 2 (λ m. as80 m ≡ effect80 (as80 (machine_of terms.old run.old)) (Instr80.Push pair)) result }
{
    match pair {
        StackPair::B => push(terms, run, Wide::Of80(Pair::B)),
        StackPair::D => push(terms, run, Wide::Of80(Pair::D)),
        StackPair::H => push(terms, run, Wide::Of80(Pair::H)),
        StackPair::Psw => perform(terms, run, &PUSH_PSW),
    }
}

// POP.
fn pop_off(terms: &mut Terms, run: &mut Run, pair: StackPair) -> Option<()>
    requires ready { IsReady terms.old run.old }
    requires room { length run.old.actions.items ≤ 510 }
    ensures { GoesOn terms.old terms.new run.old run.new 24 2 (λ m. as80 m ≡ effect80 (as80 (machine_of terms.old run.old)) (Instr80.Pop pair)) result }
{
    match pair {
        StackPair::B => pop_pair(terms, run, Pair::B),
        StackPair::D => pop_pair(terms, run, Pair::D),
        StackPair::H => pop_pair(terms, run, Pair::H),
        StackPair::Psw => perform(terms, run, &POP_PSW),
    }
}

// POP of a pair of registers.
fn pop_pair(terms: &mut Terms, run: &mut Run, pair: Pair) -> Option<()>
    requires ready { IsReady terms.old run.old }
    requires room { length run.old.actions.items ≤ 510 }
    ensures { let before = as80 (machine_of terms.old run.old) in GoesOn terms.old terms.new run.old run.new 24 2 (λ m. as80 m ≡ record (with_pair (load16 before before.sp) pair (next_word before)) { sp = sum16 before.sp (Num 2) }) result }
{
    perform(
        terms,
        run,
        &[
            Micro::Word(WordSlot::W, WordValue::Of(Wide::Of80(Pair::Sp))),
            Micro::Word(WordSlot::V, WordValue::Loaded),
            Micro::Load16(WordSlot::W),
            Micro::Put(Wide::Of80(pair), WordSlot::V),
            Micro::Word(WordSlot::V, WordValue::Number(2)),
            Micro::Sum(WordSlot::W, WordSlot::W, WordSlot::V),
            Micro::Put(Wide::Of80(Pair::Sp), WordSlot::W),
        ],
    )
}
