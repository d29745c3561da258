// The parts of operands.
ghost use Rattle.std.specs.Prelude.{◌≡◌, [], ◌∷◌};
ghost use Rattle.cells.specs.Parts.{only, these};
ghost use Rattle.cells.specs.declared.Part.TheVariants.{A, Ac, B, C, Cy, D, E, H, L, P, S, Z};
ghost use Rattle.i80.specs.Columns.{uses80, gives_zero, part_of_reg, read, address_parts, parts_written, pair, five_flags, stack_pair, carry_used, result_in_a, flag_of_condition, asked_of, changed_by};

use crate::{Goal, Instr80, Op, Pair, Reg, Src, StackPair};
use cells::{Cond, Keep, Part};

fn part_of(reg: Reg) -> Part
    ensures { result ≡ part_of_reg reg }
{
    match reg {
        Reg::A => Part::A,
        Reg::B => Part::B,
        Reg::C => Part::C,
        Reg::D => Part::D,
        Reg::E => Part::E,
        Reg::H => Part::H,
        Reg::L => Part::L,
    }
}

pub(crate) fn a() -> Keep
    ensures { result ≡ only A }
{
    Keep::none().with(Part::A)
}

pub(crate) fn cy() -> Keep
    ensures { result ≡ only Cy }
{
    Keep::none().with(Part::Cy)
}

fn bc() -> Keep
    ensures { result ≡ these (B ∷ C ∷ []) }
{
    Keep::none().with(Part::B).with(Part::C)
}

pub(crate) fn de() -> Keep
    ensures { result ≡ these (D ∷ E ∷ []) }
{
    Keep::none().with(Part::D).with(Part::E)
}

pub(crate) fn hl() -> Keep
    ensures { result ≡ these (H ∷ L ∷ []) }
{
    Keep::none().with(Part::H).with(Part::L)
}

/// S Z AC P: the flags of INR and DCR, which keep CY.
pub(crate) fn counted_flags() -> Keep
    ensures { result ≡ these (S ∷ Z ∷ Ac ∷ P ∷ []) }
{
    Keep::none()
        .with(Part::S)
        .with(Part::Z)
        .with(Part::Ac)
        .with(Part::P)
}

pub(crate) fn five_flags() -> Keep
    ensures { result ≡ five_flags }
{
    counted_flags().with(Part::Cy)
}

/// An operand that is read: M uses the address in HL.
pub(crate) fn read(operand: Src) -> Keep
    ensures { result ≡ read operand }
{
    match operand {
        Src::Reg(reg) => Keep::none().with(part_of(reg)),
        Src::Mem => hl(),
    }
}

/// What an operand that is written uses: M the address in HL, a register nothing.
pub(crate) fn address_parts(operand: Src) -> Keep
    ensures { result ≡ address_parts operand }
{
    match operand {
        Src::Reg(_) => Keep::none(),
        Src::Mem => hl(),
    }
}

/// What an operand that is written defines: M is no part.
pub(crate) fn written(operand: Src) -> Keep
    ensures { result ≡ parts_written operand }
{
    match operand {
        Src::Reg(reg) => Keep::none().with(part_of(reg)),
        Src::Mem => Keep::none(),
    }
}

/// The two registers of a pair; SP is no part.
pub(crate) fn pair(registers: Pair) -> Keep
    ensures { result ≡ pair registers }
{
    match registers {
        Pair::B => bc(),
        Pair::D => de(),
        Pair::H => hl(),
        Pair::Sp => Keep::none(),
    }
}

pub(crate) fn stack_pair(registers: StackPair) -> Keep
    ensures { result ≡ stack_pair registers }
{
    match registers {
        StackPair::B => bc(),
        StackPair::D => de(),
        StackPair::H => hl(),
        StackPair::Psw => a().join(five_flags()),
    }
}

/// The carry that ADC and SBB use.
pub(crate) fn carry_in(op: Op) -> Keep
    ensures { result ≡ carry_used op }
{
    match op {
        Op::Adc | Op::Sbb => cy(),
        _ => Keep::none(),
    }
}

/// What an operation on A uses.
pub(crate) fn operands(op: Op, operand: Src) -> Keep
    ensures { result ≡ uses80 (Instr80.Alu op operand) }
{
    if op.gives_zero(operand) {
        Keep::none()
    } else {
        a().join(read(operand)).join(carry_in(op))
    }
}

/// A, which every operation but CMP defines.
pub(crate) fn result_in_a(op: Op) -> Keep
    ensures { result ≡ result_in_a op }
{
    match op {
        Op::Cmp => Keep::none(),
        _ => a(),
    }
}

/// The flag that a condition reads.
pub(crate) fn flag(cond: Cond) -> Keep
    ensures { result ≡ flag_of_condition cond }
{
    Keep::none().with(match cond {
        Cond::Nz | Cond::Z => Part::Z,
        Cond::Nc | Cond::C => Part::Cy,
        Cond::Po | Cond::Pe => Part::P,
        Cond::P | Cond::M => Part::S,
    })
}

/// What a jump or call to a goal uses: the system at 5 takes its function in C and its argument in DE.
pub(crate) fn asked_of(goal: Goal) -> Keep
    ensures { result ≡ asked_of goal }
{
    match goal {
        Goal::Bdos => de().with(Part::C),
        Goal::At(_) | Goal::Boot => Keep::none(),
    }
}

/// What a jump or call to a goal defines: the system at 5 leaves no part as it was.
pub(crate) fn changed_by(goal: Goal) -> Keep
    ensures { result ≡ changed_by goal }
{
    match goal {
        Goal::Bdos => Keep::all(),
        Goal::At(_) | Goal::Boot => Keep::none(),
    }
}
