// How a node says its term: a kind in `op`, with a number and up to three ids.

ghost use Rattle.std.specs.Prelude.{◌≡◌, slice_index_or};
ghost use Rattle.sym_terms.specs.Numbers.{part_number, part_numbered, op_number, op_numbered, kind_number, kind_of, says_adjusted};

use cells::Part;
use i80::Op;

/// The kinds of nodes. A FlagByte has two: its own, with S and Z and the id of the other, and that one, which is no term.
#[derive(Clone, Copy)]
pub enum Kind {
    Num,
    Start,
    StartSp,
    Loaded8,
    Loaded16,
    Alu,
    Flag,
    Sum16,
    High,
    Low,
    Join,
    FlagByte,
    Rest,
    Bit,
    Turn,
    Turned,
    Adjust,
    Code,
    Unknown,
}

/// The mark in an `op` of a term in which an Adjust stands, above all numbers of kinds.
pub const ADJUSTED: u16 = 32;

const KINDS: [Kind; 19] = [
    Kind::Num,
    Kind::Start,
    Kind::StartSp,
    Kind::Loaded8,
    Kind::Loaded16,
    Kind::Alu,
    Kind::Flag,
    Kind::Sum16,
    Kind::High,
    Kind::Low,
    Kind::Join,
    Kind::FlagByte,
    Kind::Rest,
    Kind::Bit,
    Kind::Turn,
    Kind::Turned,
    Kind::Adjust,
    Kind::Code,
    Kind::Unknown,
];

const OPS: [Op; 8] = [
    Op::Add,
    Op::Adc,
    Op::Sub,
    Op::Sbb,
    Op::Ana,
    Op::Xra,
    Op::Ora,
    Op::Cmp,
];

// The variant of a number, or the default where there is none.
fn listed<T: Copy>(variants: &[T], number: u16, default: T) -> T
    ensures { result ≡ slice_index_or variants.now number default }
{
    variants
        .get(usize::from(number))
        .copied()
        .unwrap_or(default)
}

pub fn kind_number(kind: Kind) -> u16
    ensures { result ≡ kind_number kind }
{
    kind as u16
}

/// The kind that an `op` says.
pub fn kind_of(op: u16) -> Kind
    ensures { result ≡ kind_of op }
{
    listed(&KINDS, op % ADJUSTED, Kind::Unknown)
}

/// Whether an `op` says that an Adjust stands in the term.
pub fn says_adjusted(op: u16) -> bool
    ensures { result ≡ says_adjusted op }
{
    op / ADJUSTED == 1
}

pub fn part_number(part: Part) -> u16
    ensures { result ≡ part_number part }
{
    part as u16
}

pub fn part_of(number: u16) -> Part
    ensures { result ≡ part_numbered number }
{
    listed(&Part::ALL, number, Part::A)
}

pub fn op_number(op: Op) -> u16
    ensures { result ≡ op_number op }
{
    op as u16
}

pub fn op_of(number: u16) -> Op
    ensures { result ≡ op_numbered number }
{
    listed(&OPS, number, Op::Add)
}
