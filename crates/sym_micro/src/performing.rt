// Micro-operations performed.

ghost use Rattle.std.specs.Prelude.{◌≡◌, ◌+◌, ◌≤◌, ◌<◌, length};
ghost use Rattle.sym_micro.specs.Machine.{as80, as86, micro, micros, weight, weights, moves, all_moves, with_byte, with_word, with_halves, with_wide, byte_value, word_value, given_flag, given_flags, word_in, acts_at};
ghost use Rattle.sym_micro.specs.Stands.{tree_of_action, ActionIsGiven, machine_of, IsReady, GoesOn};

use crate::micro::{
    ByteSlot, ByteValue, FlagSet, FlagSlot, FlagValue, Micro, Wide, WordSlot, WordValue,
};
use crate::outcome::Action;
use crate::run::Run;
use crate::values::{
    byte_term, carry_term, flag_term, kind_number, operation, turn_carry_term, word_term,
};
use i80::{Op, Pair, Reg};
use i86::{Reg8, Reg16, Rotate};
use sym_terms::{Terms, made_terms_have_sorts};

fn give_byte(terms: &mut Terms, run: &mut Run, slot: ByteSlot, value: ByteValue) -> Option<()>
    requires { IsReady terms.old run.old }
    ensures { GoesOn terms.old terms.new run.old run.new 1 0 (λ m. m ≡ with_byte (machine_of terms.old run.old) slot (byte_value (machine_of terms.old run.old) value)) result }
{
    made_terms_have_sorts();
    let term = byte_term(terms, run, value)?;
    run.set_byte(slot, term);
    Some(())
}

fn give_word(terms: &mut Terms, run: &mut Run, slot: WordSlot, value: WordValue) -> Option<()>
    requires { IsReady terms.old run.old }
    ensures { GoesOn terms.old terms.new run.old run.new 1 0 (λ m. m ≡ with_word (machine_of terms.old run.old) slot (word_value (machine_of terms.old run.old) value)) result }
{
    made_terms_have_sorts();
    let term = word_term(terms, run, value)?;
    run.set_word(slot, term);
    Some(())
}

fn give_flag(terms: &mut Terms, run: &mut Run, slot: FlagSlot, value: FlagValue) -> Option<()>
    requires { IsReady terms.old run.old }
    ensures { GoesOn terms.old terms.new run.old run.new 1 0 (λ m. m ≡ given_flag (machine_of terms.old run.old) slot value) result }
{
    made_terms_have_sorts();
    let term = flag_term(terms, run, slot, value)?;
    run.set_flag(slot, term);
    Some(())
}

// Two flags are given a value, one after the other.
fn give_two_flags(
    terms: &mut Terms,
    run: &mut Run,
    first: FlagSlot,
    second: FlagSlot,
    value: FlagValue,
) -> Option<()>
    requires { IsReady terms.old run.old }
    ensures { GoesOn terms.old terms.new run.old run.new 2 0 (λ m. m ≡ given_flag (given_flag (machine_of terms.old run.old) first value) second value) result }
{
    give_flag(terms, run, first, value)?;
    give_flag(terms, run, second, value)
}

// All but CY.
fn give_four_flags(terms: &mut Terms, run: &mut Run, value: FlagValue) -> Option<()>
    requires { IsReady terms.old run.old }
    ensures { GoesOn terms.old terms.new run.old run.new 4 0 (λ m. m ≡ given_flags (machine_of terms.old run.old) FlagSet.AllButCy value) result }
{
    give_two_flags(terms, run, FlagSlot::S, FlagSlot::Z, value)?;
    give_two_flags(terms, run, FlagSlot::Ac, FlagSlot::P, value)
}

fn give_five_flags(terms: &mut Terms, run: &mut Run, value: FlagValue) -> Option<()>
    requires { IsReady terms.old run.old }
    ensures { GoesOn terms.old terms.new run.old run.new 5 0 (λ m. m ≡ given_flags (machine_of terms.old run.old) FlagSet.All value) result }
{
    give_four_flags(terms, run, value)?;
    give_flag(terms, run, FlagSlot::Cy, value)
}

// Two bytes are given the halves of a word.
fn put_halves(
    terms: &mut Terms,
    run: &mut Run,
    high: ByteSlot,
    low: ByteSlot,
    from: WordSlot,
) -> Option<()>
    requires { IsReady terms.old run.old }
    ensures { GoesOn terms.old terms.new run.old run.new 2 0 (λ m. m ≡ with_halves (machine_of terms.old run.old) high low (word_in (machine_of terms.old run.old) from)) result }
{
    give_byte(terms, run, high, ByteValue::Half(from, true))?;
    give_byte(terms, run, low, ByteValue::Half(from, false))
}

fn put(terms: &mut Terms, run: &mut Run, wide: Wide, from: WordSlot) -> Option<()>
    requires { IsReady terms.old run.old }
    ensures { GoesOn terms.old terms.new run.old run.new 2 0 (λ m. m ≡ with_wide (machine_of terms.old run.old) wide (word_in (machine_of terms.old run.old) from)) result }
{
    match wide {
        Wide::Of80(pair) => put_pair(terms, run, pair, from),
        Wide::Of86(reg) => match reg {
            Reg16::Ax => put_halves(
                terms,
                run,
                ByteSlot::Of86(Reg8::Ah),
                ByteSlot::Of86(Reg8::Al),
                from,
            ),
            Reg16::Cx => put_pair(terms, run, Pair::B, from),
            Reg16::Dx => put_pair(terms, run, Pair::D, from),
            Reg16::Bx => put_pair(terms, run, Pair::H, from),
            Reg16::Sp => put_pair(terms, run, Pair::Sp, from),
            Reg16::Si => {
                run.si = run.word(from);
                Some(())
            }
        },
    }
}

fn put_pair(terms: &mut Terms, run: &mut Run, pair: Pair, from: WordSlot) -> Option<()>
    requires { IsReady terms.old run.old }
    ensures { GoesOn terms.old terms.new run.old run.new 2 0 (λ m. m ≡ with_wide (machine_of terms.old run.old) (Wide.Of80 pair) (word_in (machine_of terms.old run.old) from)) result }
{
    match pair {
        Pair::B => put_halves(
            terms,
            run,
            ByteSlot::Of80(Reg::B),
            ByteSlot::Of80(Reg::C),
            from,
        ),
        Pair::D => put_halves(
            terms,
            run,
            ByteSlot::Of80(Reg::D),
            ByteSlot::Of80(Reg::E),
            from,
        ),
        Pair::H => put_halves(
            terms,
            run,
            ByteSlot::Of80(Reg::H),
            ByteSlot::Of80(Reg::L),
            from,
        ),
        Pair::Sp => {
            run.sp = run.word(from);
            Some(())
        }
    }
}

fn give_sum(
    terms: &mut Terms,
    run: &mut Run,
    slot: WordSlot,
    a: WordSlot,
    b: WordSlot,
) -> Option<()>
    requires { IsReady terms.old run.old }
    ensures { GoesOn terms.old terms.new run.old run.new 2 0 (λ m. m ≡ micro (machine_of terms.old run.old) (Micro.Sum slot a b)) result }
{
    made_terms_have_sorts();
    let term = terms.sum16(run.word(a), run.word(b))?;
    run.set_word(slot, term);
    Some(())
}

fn give_flag_byte(terms: &mut Terms, run: &mut Run, slot: ByteSlot) -> Option<()>
    requires { IsReady terms.old run.old }
    ensures { GoesOn terms.old terms.new run.old run.new 2 0 (λ m. m ≡ micro (machine_of terms.old run.old) (Micro.FlagByte slot)) result }
{
    made_terms_have_sorts();
    let held = &run.held;
    let term = terms.flag_byte([held.s, held.z, held.ac, held.p, held.cy])?;
    run.set_byte(slot, term);
    Some(())
}

// CY is given the other value.
fn complement(terms: &mut Terms, run: &mut Run) -> Option<()>
    requires { IsReady terms.old run.old }
    ensures { GoesOn terms.old terms.new run.old run.new 3 0 (λ m. m ≡ micro (machine_of terms.old run.old) Micro.Complement) result }
{
    made_terms_have_sorts();
    let zero = terms.number(0)?;
    let one = terms.number(1)?;
    let term = terms.alu(Op::Xra, run.held.cy, one, zero)?;
    run.set_flag(FlagSlot::Cy, term);
    Some(())
}

// An operation on two bytes: ADC and SBB take CY, and CMP subtracts.
fn operate(terms: &mut Terms, run: &mut Run, op: Op, a: ByteSlot, b: ByteSlot) -> Option<()>
    requires { IsReady terms.old run.old }
    ensures { GoesOn terms.old terms.new run.old run.new 2 0 (λ m. m ≡ micro (machine_of terms.old run.old) (Micro.Operate op a b)) result }
{
    made_terms_have_sorts();
    let carry = carry_term(terms, run, op)?;
    let term = terms.alu(operation(op), run.byte(a), run.byte(b), carry)?;
    run.result = term;
    Some(())
}

fn adjust(terms: &mut Terms, run: &mut Run) -> Option<()>
    requires { IsReady terms.old run.old }
    ensures { GoesOn terms.old terms.new run.old run.new 1 0 (λ m. m ≡ micro (machine_of terms.old run.old) Micro.Adjust) result }
{
    made_terms_have_sorts();
    let term = terms.adjust(run.held.a, run.held.ac, run.held.cy)?;
    run.result = term;
    Some(())
}

// A byte rotated by 1.
fn turn(terms: &mut Terms, run: &mut Run, kind: Rotate, slot: ByteSlot) -> Option<()>
    requires { IsReady terms.old run.old }
    ensures { GoesOn terms.old terms.new run.old run.new 2 0 (λ m. m ≡ micro (machine_of terms.old run.old) (Micro.Turn kind slot)) result }
{
    made_terms_have_sorts();
    let carry = turn_carry_term(terms, run, kind)?;
    let term = terms.turn(kind_number(kind), run.byte(slot), carry)?;
    run.turned = term;
    Some(())
}

// A load or a store joins the others.
fn act(terms: &Terms, run: &mut Run, action: Action) -> Option<()>
    requires ready { IsReady terms.now run.old }
    requires given { ActionIsGiven terms.now action }
    requires room { length run.old.actions.items < 512 }
    ensures { GoesOn terms.now terms.now run.old run.new 0 1 (λ m. m ≡ acts_at (machine_of terms.now run.old) (tree_of_action terms.now action)) result }
{
    run.actions.push_reserved(action);
    match action {
        Action::Load8(_) | Action::Load16(_) => run.loads += 1,
        Action::Store8(_, _) | Action::Store16(_, _) => {}
    }
    Some(())
}

// One micro-operation.
fn perform_one(terms: &mut Terms, run: &mut Run, step: Micro) -> Option<()>
    requires ready { IsReady terms.old run.old }
    requires room { length run.old.actions.items + moves step ≤ 512 }
    ensures { GoesOn terms.old terms.new run.old run.new (weight step) (moves step) (λ m. m ≡ micro (machine_of terms.old run.old) step) result }
{
    match step {
        Micro::Byte(slot, value) => give_byte(terms, run, slot, value),
        Micro::Word(slot, value) => give_word(terms, run, slot, value),
        Micro::Flag(slot, value) => give_flag(terms, run, slot, value),
        Micro::Flags(flags, value) => match flags {
            FlagSet::All => give_five_flags(terms, run, value),
            FlagSet::AllButCy => give_four_flags(terms, run, value),
        },
        Micro::Put(wide, from) => put(terms, run, wide, from),
        Micro::Sum(slot, a, b) => give_sum(terms, run, slot, a, b),
        Micro::FlagByte(slot) => give_flag_byte(terms, run, slot),
        Micro::Complement => complement(terms, run),
        Micro::Operate(op, a, b) => operate(terms, run, op, a, b),
        Micro::Adjust => adjust(terms, run),
        Micro::Turn(kind, slot) => turn(terms, run, kind, slot),
        Micro::Load8(address) => {
            let action = Action::Load8(run.word(address));
            act(terms, run, action)
        }
        Micro::Load16(address) => {
            let action = Action::Load16(run.word(address));
            act(terms, run, action)
        }
        Micro::Store8(address, byte) => {
            let action = Action::Store8(run.word(address), run.byte(byte));
            act(terms, run, action)
        }
        Micro::Store16(address, word) => {
            let action = Action::Store16(run.word(address), run.word(word));
            act(terms, run, action)
        }
    }
}

/// Micro-operations, one after the other. None only where the terms had no room for a node more.
pub fn perform_each(terms: &mut Terms, run: &mut Run, steps: &[Micro]) -> Option<()>
    requires ready { IsReady terms.old run.old }
    requires room { length run.old.actions.items + all_moves steps.now ≤ 512 }
    ensures { GoesOn terms.old terms.new run.old run.new (weights steps.now) (all_moves steps.now) (λ m. m ≡ micros (machine_of terms.old run.old) steps.now) result }
{
    for step in steps {
        perform_one(terms, run, *step)?;
    }
    Some(())
}

/// The micro-operations of an instruction, as either processor sees what they do. None only where the terms had no room for a node more.
pub fn perform(terms: &mut Terms, run: &mut Run, steps: &[Micro]) -> Option<()>
    requires ready { IsReady terms.old run.old }
    requires room { length run.old.actions.items ≤ 510 }
    requires light { weights steps.now ≤ 24 }
    requires few { all_moves steps.now ≤ 2 }
    ensures on_80 { GoesOn terms.old terms.new run.old run.new 24 2 (λ m. as80 m ≡ as80 (micros (machine_of terms.old run.old) steps.now)) result }
    ensures on_86 { GoesOn terms.old terms.new run.old run.new 24 2 (λ m. as86 m ≡ as86 (micros (machine_of terms.old run.old) steps.now)) result }
{
    perform_each(terms, run, steps)
}
