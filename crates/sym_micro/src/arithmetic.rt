// Arithmetic that both processors do alike.

ghost use Rattle.std.specs.Prelude.{◌≡◌, ◌≤◌, length};
ghost use Rattle.i80.specs.declared.Instr80.{Instr80};
ghost use Rattle.i86.specs.declared.Instr86.{Instr86};
ghost use Rattle.sym_terms.specs.Term.{Num};
ghost use Rattle.sym_terms.specs.Making.{alu};
ghost use Rattle.sym_block_def.specs.Outcome.{with_count_flags_of};
ghost use Rattle.sym_block_def.specs.Block80.{operation, carry_in, operated, cleared, effect80};
ghost use Rattle.sym_block_def.specs.Block80.{with_held as with_held_80, load8 as load8_80, store8 as store8_80, next_byte as next_byte_80};
ghost use Rattle.sym_block_def.specs.Symbolic86.{effect86};
ghost use Rattle.sym_block_def.specs.Symbolic86.{with_held as with_held_86, load8 as load8_86, store8 as store8_86, next_byte as next_byte_86};
ghost use Rattle.sym_micro.specs.Machine.{as80, as86, byte_in, word_value};
ghost use Rattle.sym_micro.specs.Alike.{counted, rotated, complemented, word_added, number_added};
ghost use Rattle.sym_micro.specs.Stands.{machine_of, IsReady, GoesOn};

use crate::micro::{
    ByteSlot, ByteValue, FlagSet, FlagSlot, FlagValue, Micro, Wide, WordSlot, WordValue,
};
use crate::performing::{perform, perform_each};
use crate::run::Run;
use i80::{Op, Reg};
use i86::Rotate;
use sym_terms::Terms;

/// XRA A and SUB A; `XOR AL,AL` and `SUB AL,AL`.
pub fn clear(terms: &mut Terms, run: &mut Run) -> Option<()>
    requires ready { IsReady terms.old run.old }
    requires room { length run.old.actions.items ≤ 510 }
    ensures on_80 { let before = machine_of terms.old run.old in GoesOn terms.old terms.new run.old run.new 24 2 (λ m. as80 m ≡ with_held_80 (as80 before) (cleared before.held)) result }
    ensures on_86 { let before = machine_of terms.old run.old in GoesOn terms.old terms.new run.old run.new 24 2 (λ m. as86 m ≡ with_held_86 (as86 before) (cleared before.held)) result }
{
    perform(
        terms,
        run,
        &[
            Micro::Byte(ByteSlot::Of80(Reg::A), ByteValue::Number(0)),
            Micro::Flag(FlagSlot::S, FlagValue::Number(false)),
            Micro::Flag(FlagSlot::Z, FlagValue::Number(true)),
            Micro::Flag(FlagSlot::Ac, FlagValue::Unknown),
            Micro::Flag(FlagSlot::P, FlagValue::Number(true)),
            Micro::Flag(FlagSlot::Cy, FlagValue::Number(false)),
        ],
    )
}

/// An operation on A, or AL, and a register.
pub fn operate(terms: &mut Terms, run: &mut Run, op: Op, from: ByteSlot) -> Option<()>
    requires ready { IsReady terms.old run.old }
    requires room { length run.old.actions.items ≤ 510 }
    ensures on_80 { let before = machine_of terms.old run.old in GoesOn terms.old terms.new run.old run.new 24 2 (λ m. as80 m ≡ with_held_80 (as80 before) (operated op (byte_in before from) before.held)) result }
    ensures on_86 { let before = machine_of terms.old run.old in GoesOn terms.old terms.new run.old run.new 24 2 (λ m. as86 m ≡ with_held_86 (as86 before) (operated op (byte_in before from) before.held)) result }
{
    perform(
        terms,
        run,
        &[
            Micro::Operate(op, ByteSlot::Of80(Reg::A), from),
            Micro::Byte(ByteSlot::Of80(Reg::A), ByteValue::After(op)),
            Micro::Flags(FlagSet::All, FlagValue::OfResult),
        ],
    )
}

/// An operation on A, or AL, and the byte at an address.
pub fn operate_memory(terms: &mut Terms, run: &mut Run, op: Op, at: WordValue) -> Option<()>
    requires ready { IsReady terms.old run.old }
    requires room { length run.old.actions.items ≤ 510 }
    ensures on_80 { let before = machine_of terms.old run.old in GoesOn terms.old terms.new run.old run.new 24 2 (λ m. as80 m ≡ with_held_80 (load8_80 (as80 before) (word_value before at)) (operated op (next_byte_80 (as80 before)) before.held)) result }
    ensures on_86 { let before = machine_of terms.old run.old in GoesOn terms.old terms.new run.old run.new 24 2 (λ m. as86 m ≡ with_held_86 (load8_86 (as86 before) (word_value before at)) (operated op (next_byte_86 (as86 before)) before.held)) result }
{
    perform(
        terms,
        run,
        &[
            Micro::Word(WordSlot::W, at),
            Micro::Byte(ByteSlot::T, ByteValue::Loaded),
            Micro::Load8(WordSlot::W),
            Micro::Operate(op, ByteSlot::Of80(Reg::A), ByteSlot::T),
            Micro::Byte(ByteSlot::Of80(Reg::A), ByteValue::After(op)),
            Micro::Flags(FlagSet::All, FlagValue::OfResult),
        ],
    )
}

/// An operation on A, or AL, and a number.
pub fn operate_number(terms: &mut Terms, run: &mut Run, op: Op, n: u8) -> Option<()>
    requires ready { IsReady terms.old run.old }
    requires room { length run.old.actions.items ≤ 510 }
    ensures on_80 { let before = machine_of terms.old run.old in GoesOn terms.old terms.new run.old run.new 24 2 (λ m. as80 m ≡ with_held_80 (as80 before) (operated op (Num n) before.held)) result }
    ensures on_86 { let before = machine_of terms.old run.old in GoesOn terms.old terms.new run.old run.new 24 2 (λ m. as86 m ≡ with_held_86 (as86 before) (operated op (Num n) before.held)) result }
{
    perform(
        terms,
        run,
        &[
            Micro::Byte(ByteSlot::T, ByteValue::Number(n)),
            Micro::Operate(op, ByteSlot::Of80(Reg::A), ByteSlot::T),
            Micro::Byte(ByteSlot::Of80(Reg::A), ByteValue::After(op)),
            Micro::Flags(FlagSet::All, FlagValue::OfResult),
        ],
    )
}

/// INR and DCR, or INC and DEC, of the byte at an address: 1 is added or subtracted.
pub fn count_memory(terms: &mut Terms, run: &mut Run, op: Op, at: WordValue) -> Option<()>
    requires ready { IsReady terms.old run.old }
    requires room { length run.old.actions.items ≤ 510 }
    ensures on_80 { let before = machine_of terms.old run.old in GoesOn terms.old terms.new run.old run.new 24 2 (λ m. as80 m ≡ let sum = alu (operation op) (next_byte_80 (as80 before)) (Num 1) (carry_in op before.held.cy) in with_held_80 (store8_80 (load8_80 (as80 before) (word_value before at)) (word_value before at) sum) (with_count_flags_of sum before.held)) result }
    ensures on_86 { let before = machine_of terms.old run.old in GoesOn terms.old terms.new run.old run.new 24 2 (λ m. as86 m ≡ let sum = alu (operation op) (next_byte_86 (as86 before)) (Num 1) (carry_in op before.held.cy) in with_held_86 (store8_86 (load8_86 (as86 before) (word_value before at)) (word_value before at) sum) (with_count_flags_of sum before.held)) result }
{
    perform(
        terms,
        run,
        &[
            Micro::Word(WordSlot::W, at),
            Micro::Byte(ByteSlot::T, ByteValue::Loaded),
            Micro::Load8(WordSlot::W),
            Micro::Byte(ByteSlot::U, ByteValue::Number(1)),
            Micro::Operate(op, ByteSlot::T, ByteSlot::U),
            Micro::Byte(ByteSlot::T, ByteValue::Result),
            Micro::Store8(WordSlot::W, ByteSlot::T),
            Micro::Flags(FlagSet::AllButCy, FlagValue::OfResult),
        ],
    )
}

/// INR and DCR, or INC and DEC, of a register: 1 is added or subtracted.
pub fn count_register(terms: &mut Terms, run: &mut Run, op: Op, on: ByteSlot) -> Option<()>
    requires ready { IsReady terms.old run.old }
    requires room { length run.old.actions.items ≤ 510 }
    ensures on_80 { GoesOn terms.old terms.new run.old run.new 24 2 (λ m. as80 m ≡ as80 (counted (machine_of terms.old run.old) op on)) result }
    ensures on_86 { GoesOn terms.old terms.new run.old run.new 24 2 (λ m. as86 m ≡ as86 (counted (machine_of terms.old run.old) op on)) result }
{
    perform(
        terms,
        run,
        &[
            Micro::Byte(ByteSlot::T, ByteValue::Of(on)),
            Micro::Byte(ByteSlot::U, ByteValue::Number(1)),
            Micro::Operate(op, ByteSlot::T, ByteSlot::U),
            Micro::Byte(on, ByteValue::Result),
            Micro::Flags(FlagSet::AllButCy, FlagValue::OfResult),
        ],
    )
}

/// A byte register is rotated by 1.
pub fn rotate(terms: &mut Terms, run: &mut Run, kind: Rotate, on: ByteSlot) -> Option<()>
    requires ready { IsReady terms.old run.old }
    requires room { length run.old.actions.items ≤ 510 }
    ensures on_80 { GoesOn terms.old terms.new run.old run.new 24 2 (λ m. as80 m ≡ as80 (rotated (machine_of terms.old run.old) kind on)) result }
    ensures on_86 { GoesOn terms.old terms.new run.old run.new 24 2 (λ m. as86 m ≡ as86 (rotated (machine_of terms.old run.old) kind on)) result }
{
    perform(
        terms,
        run,
        &[
            Micro::Turn(kind, on),
            Micro::Byte(on, ByteValue::Turned),
            Micro::Flag(FlagSlot::Cy, FlagValue::OfTurned),
        ],
    )
}

/// CMA, or NOT.
pub fn complement(terms: &mut Terms, run: &mut Run, on: ByteSlot) -> Option<()>
    requires ready { IsReady terms.old run.old }
    requires room { length run.old.actions.items ≤ 510 }
    ensures on_80 { GoesOn terms.old terms.new run.old run.new 24 2 (λ m. as80 m ≡ as80 (complemented (machine_of terms.old run.old) on)) result }
    ensures on_86 { GoesOn terms.old terms.new run.old run.new 24 2 (λ m. as86 m ≡ as86 (complemented (machine_of terms.old run.old) on)) result }
{
    perform(
        terms,
        run,
        &[
            Micro::Byte(ByteSlot::T, ByteValue::Of(on)),
            Micro::Byte(ByteSlot::U, ByteValue::Number(255)),
            Micro::Operate(Op::Xra, ByteSlot::T, ByteSlot::U),
            Micro::Byte(on, ByteValue::Result),
        ],
    )
}

/// DAD, or ADD of words as far as the sum and its carry: room is left for four nodes more, the flags that ADD loses.
pub fn add_word(terms: &mut Terms, run: &mut Run, to: Wide, from: Wide) -> Option<()>
    requires ready { IsReady terms.old run.old }
    requires room { length run.old.actions.items ≤ 510 }
    ensures on_80 { GoesOn terms.old terms.new run.old run.new 20 2 (λ m. as80 m ≡ as80 (word_added (machine_of terms.old run.old) to from)) result }
    ensures on_86 { GoesOn terms.old terms.new run.old run.new 20 2 (λ m. as86 m ≡ as86 (word_added (machine_of terms.old run.old) to from)) result }
{
    perform_each(
        terms,
        run,
        &[
            Micro::Word(WordSlot::W, WordValue::Of(to)),
            Micro::Word(WordSlot::V, WordValue::Of(from)),
            Micro::Sum(WordSlot::X, WordSlot::W, WordSlot::V),
            Micro::Put(to, WordSlot::X),
            Micro::Byte(ByteSlot::T, ByteValue::Half(WordSlot::W, false)),
            Micro::Byte(ByteSlot::U, ByteValue::Half(WordSlot::V, false)),
            Micro::Operate(Op::Add, ByteSlot::T, ByteSlot::U),
            Micro::Flag(FlagSlot::Cy, FlagValue::OfResult),
            Micro::Byte(ByteSlot::T, ByteValue::Half(WordSlot::W, true)),
            Micro::Byte(ByteSlot::U, ByteValue::Half(WordSlot::V, true)),
            Micro::Operate(Op::Adc, ByteSlot::T, ByteSlot::U),
            Micro::Flag(FlagSlot::Cy, FlagValue::OfResult),
        ],
    )
}

/// INX and DCX, or INC and DEC of a word as far as the sum: room is left for four nodes more, the flags that INC and DEC lose.
pub fn add_number(terms: &mut Terms, run: &mut Run, to: Wide, n: u16) -> Option<()>
    requires ready { IsReady terms.old run.old }
    requires room { length run.old.actions.items ≤ 510 }
    ensures on_80 { GoesOn terms.old terms.new run.old run.new 20 2 (λ m. as80 m ≡ as80 (number_added (machine_of terms.old run.old) to n)) result }
    ensures on_86 { GoesOn terms.old terms.new run.old run.new 20 2 (λ m. as86 m ≡ as86 (number_added (machine_of terms.old run.old) to n)) result }
{
    perform_each(
        terms,
        run,
        &[
            Micro::Word(WordSlot::W, WordValue::Of(to)),
            Micro::Word(WordSlot::V, WordValue::Number(n)),
            Micro::Sum(WordSlot::W, WordSlot::W, WordSlot::V),
            Micro::Put(to, WordSlot::W),
        ],
    )
}

/// DAA.
pub fn adjust(terms: &mut Terms, run: &mut Run) -> Option<()>
    requires ready { IsReady terms.old run.old }
    requires room { length run.old.actions.items ≤ 510 }
    ensures on_80 { let before = machine_of terms.old run.old in GoesOn terms.old terms.new run.old run.new 24 2 (λ m. as80 m ≡ effect80 (as80 before) Instr80.Daa) result }
    ensures on_86 { let before = machine_of terms.old run.old in GoesOn terms.old terms.new run.old run.new 24 2 (λ m. as86 m ≡ effect86 (as86 before) Instr86.Daa) result }
{
    perform(
        terms,
        run,
        &[
            Micro::Adjust,
            Micro::Byte(ByteSlot::Of80(Reg::A), ByteValue::Result),
            Micro::Flags(FlagSet::All, FlagValue::OfResult),
        ],
    )
}

/// STC.
pub fn set_carry(terms: &mut Terms, run: &mut Run) -> Option<()>
    requires ready { IsReady terms.old run.old }
    requires room { length run.old.actions.items ≤ 510 }
    ensures on_80 { let before = machine_of terms.old run.old in GoesOn terms.old terms.new run.old run.new 24 2 (λ m. as80 m ≡ effect80 (as80 before) Instr80.Stc) result }
    ensures on_86 { let before = machine_of terms.old run.old in GoesOn terms.old terms.new run.old run.new 24 2 (λ m. as86 m ≡ effect86 (as86 before) Instr86.Stc) result }
{
    perform(
        terms,
        run,
        &[Micro::Flag(FlagSlot::Cy, FlagValue::Number(true))],
    )
}

/// CMC.
pub fn complement_carry(terms: &mut Terms, run: &mut Run) -> Option<()>
    requires ready { IsReady terms.old run.old }
    requires room { length run.old.actions.items ≤ 510 }
    ensures on_80 { let before = machine_of terms.old run.old in GoesOn terms.old terms.new run.old run.new 24 2 (λ m. as80 m ≡ effect80 (as80 before) Instr80.Cmc) result }
    ensures on_86 { let before = machine_of terms.old run.old in GoesOn terms.old terms.new run.old run.new 24 2 (λ m. as86 m ≡ effect86 (as86 before) Instr86.Cmc) result }
{
    perform(terms, run, &[Micro::Complement])
}
