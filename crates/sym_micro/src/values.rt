// The terms of values.

ghost use Rattle.std.specs.Prelude.{◌≡◌, ◌<◌, cond, true};
ghost use Rattle.cells.specs.declared.Part.TheVariants.{Cy};
ghost use Rattle.sym_terms.specs.Term.{Start, Unknown, is_flag};
ghost use Rattle.sym_terms.specs.Trees.{tree_in, Makes};
ghost use Rattle.sym_block_def.specs.Symbolic86.{turn_kind, turn_carry};
ghost use Rattle.sym_block_def.specs.Block80.{operation, carry_in};
ghost use Rattle.sym_micro.specs.Machine.{byte_value, word_value, flag_value, wide_in, part_of_flag, ByteIsCoded, WordIsCoded};
ghost use Rattle.sym_micro.specs.Stands.{id_after, machine_of, IsReady};

use crate::micro::{ByteValue, FlagSlot, FlagValue, Wide, WordValue};
use crate::run::Run;
use cells::Part;
use i80::{Op, Pair};
use i86::{Ptr, Reg16, Rotate};
use sym_terms::{Head, Term, Terms};

/// The term of a value that a byte register may be given.
pub fn byte_term(terms: &mut Terms, run: &Run, value: ByteValue) -> Option<Term>
    requires { IsReady terms.old run.now }
    ensures made { Makes terms.old terms.new 1 (byte_value (machine_of terms.old run.now) value) result }
    ensures coded { ByteIsCoded value }
{
    match value {
        ByteValue::Of(slot) => Some(run.byte(slot)),
        ByteValue::Number(n) => terms.number(u16::from(n)),
        ByteValue::Start(known, part) => start_term(terms, known, part),
        ByteValue::Code(place, high) => terms.code(place, high),
        ByteValue::Half(slot, high) => terms.half(run.word(slot), high),
        ByteValue::Result => Some(run.result),
        ByteValue::After(op) => Some(after(run, op)),
        ByteValue::Turned => Some(run.turned),
        ByteValue::Loaded => terms.loaded(run.loads, false),
    }
}

// What A holds after an operation.
fn after(run: &Run, op: Op) -> Term
    ensures { result ≡ id_after op run.now }
{
    match op {
        Op::Cmp => run.held.a,
        _ => run.result,
    }
}

/// The term of a value that a word register may be given.
pub fn word_term(terms: &mut Terms, run: &Run, value: WordValue) -> Option<Term>
    requires { IsReady terms.old run.now }
    ensures made { Makes terms.old terms.new 1 (word_value (machine_of terms.old run.now) value) result }
    ensures coded { WordIsCoded value }
{
    match value {
        WordValue::Of(wide) => match wide {
            Wide::Of80(pair) => pair_term(terms, run, pair),
            Wide::Of86(reg) => word_86_term(terms, run, reg),
        },
        WordValue::Pointed(at) => match at {
            Ptr::Bx => pair_term(terms, run, Pair::H),
            Ptr::Si => Some(run.si),
        },
        WordValue::Number(n) => terms.number(n),
        WordValue::Join(high, low) => terms.join(run.byte(high), run.byte(low)),
        WordValue::StartSp => terms.start_sp(),
        WordValue::Turned => terms.turn(4, run.held.a, run.held.cy),
        WordValue::Loaded => terms.loaded(run.loads, true),
        WordValue::Unknown => terms.unknown(),
    }
}

// The word of a pair of the 8080.
fn pair_term(terms: &mut Terms, run: &Run, pair: Pair) -> Option<Term>
    requires { IsReady terms.old run.now }
    ensures { Makes terms.old terms.new 1 (wide_in (machine_of terms.old run.now) (Wide.Of80 pair)) result }
{
    match pair {
        Pair::B => terms.join(run.held.b, run.held.c),
        Pair::D => terms.join(run.held.d, run.held.e),
        Pair::H => terms.join(run.held.h, run.held.l),
        Pair::Sp => Some(run.sp),
    }
}

// The word of a register of the 8086.
fn word_86_term(terms: &mut Terms, run: &Run, reg: Reg16) -> Option<Term>
    requires { IsReady terms.old run.now }
    ensures { Makes terms.old terms.new 1 (wide_in (machine_of terms.old run.now) (Wide.Of86 reg)) result }
{
    match reg {
        Reg16::Ax => terms.join(run.ah, run.held.a),
        Reg16::Cx => pair_term(terms, run, Pair::B),
        Reg16::Dx => pair_term(terms, run, Pair::D),
        Reg16::Bx => pair_term(terms, run, Pair::H),
        Reg16::Sp => pair_term(terms, run, Pair::Sp),
        Reg16::Si => Some(run.si),
    }
}

/// The term of a value that a flag may be given.
pub fn flag_term(terms: &mut Terms, run: &Run, slot: FlagSlot, value: FlagValue) -> Option<Term>
    requires { IsReady terms.old run.now }
    ensures { Makes terms.old terms.new 1 (flag_value (machine_of terms.old run.now) slot value) result }
{
    let part = part_of(slot);
    match value {
        FlagValue::Number(set) => terms.number(u16::from(set)),
        FlagValue::Start(known) => start_term(terms, known, part),
        FlagValue::OfResult => terms.flag(part, run.result),
        FlagValue::OfTurned => terms.flag(Part::Cy, run.turned),
        FlagValue::InByte(byte) => terms.bit(run.byte(byte), part),
        FlagValue::BroughtBack(word) => match terms.head(run.word(word)) {
            Head::Turned(carry) => Some(carry),
            _ => terms.unknown(),
        },
        FlagValue::Unknown => terms.unknown(),
    }
}

// The part that a flag is.
fn part_of(slot: FlagSlot) -> Part
    ensures part { result ≡ part_of_flag slot }
    ensures flag { is_flag result ≡ true }
{
    match slot {
        FlagSlot::S => Part::S,
        FlagSlot::Z => Part::Z,
        FlagSlot::Ac => Part::Ac,
        FlagSlot::P => Part::P,
        FlagSlot::Cy => Part::Cy,
    }
}

// What a part held at the start, if this is known.
fn start_term(terms: &mut Terms, known: bool, part: Part) -> Option<Term>
    ensures { Makes terms.old terms.new 1 (cond known (Start part) Unknown) result }
{
    if known {
        terms.start(part)
    } else {
        terms.unknown()
    }
}

/// The carry that an operation takes.
pub fn carry_term(terms: &mut Terms, run: &Run, op: Op) -> Option<Term>
    requires { IsReady terms.old run.now }
    ensures { Makes terms.old terms.new 1 (carry_in op (tree_in terms.old run.now.held.cy)) result }
{
    match op {
        Op::Adc | Op::Sbb => Some(run.held.cy),
        _ => terms.number(0),
    }
}

/// The carry that a rotation takes.
pub fn turn_carry_term(terms: &mut Terms, run: &Run, kind: Rotate) -> Option<Term>
    requires { IsReady terms.old run.now }
    ensures { Makes terms.old terms.new 1 (turn_carry kind (tree_in terms.old run.now.held.cy)) result }
{
    match kind {
        Rotate::Rcl | Rotate::Rcr => Some(run.held.cy),
        _ => terms.number(0),
    }
}

/// The operation whose result an operation has: CMP subtracts.
pub fn operation(op: Op) -> Op
    ensures { result ≡ operation op }
{
    match op {
        Op::Cmp => Op::Sub,
        _ => op,
    }
}

/// The number of a rotation.
pub fn kind_number(kind: Rotate) -> u8
    ensures number { result ≡ turn_kind kind }
    ensures small { result < 4 }
{
    match kind {
        Rotate::Rol => 0,
        Rotate::Ror => 1,
        Rotate::Rcl => 2,
        Rotate::Rcr => 3,
    }
}
