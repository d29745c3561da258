// What stands in terms, in words.
ghost use Rattle.std.specs.Prelude.{◌≡◌, ◌++◌, codes, IfOk};
ghost use Rattle.std.specs.String.{string_bytes};
ghost use Rattle.block_explain.specs.Names.{number_words, label_words, part_words, flag_words, sign_words, takes_carry, half_words};

use cells::{Part, Place};
use i80::Op;
use std::alloc::{AllocError, Global};

/// A number in hexadecimal digits, as the assemblers read it.
pub fn number_words(alloc: Global, n: u16) -> Result<String, AllocError>
    ensures { IfOk result (λ text. string_bytes text ≡ number_words n) }
{
    let digits = format!(in alloc; "{n:X}")?;
    match digits.as_bytes().first() {
        Some(first) if *first >= b'A' => format!(in alloc; "0{digits}H"),
        _ => format!(in alloc; "{digits}H"),
    }
}

/// The label of a place as it is written in a text.
pub fn label_words(alloc: Global, place: Place) -> Result<String, AllocError>
    ensures { IfOk result (λ text. string_bytes text ≡ label_words place) }
{
    match place {
        Place::At(address) => {
            let digits = hex::encode_upper(alloc, &[(address / 256) as u8, (address % 256) as u8])?;
            format!(in alloc; "L{digits}")
        }
        Place::Exit => String::from_str(alloc, "X_END"),
    }
}

/// A part.
pub fn part_words(part: Part) -> &'static str
    ensures { result.now ≡ part_words part }
{
    match part {
        Part::A => "A",
        Part::B => "B",
        Part::C => "C",
        Part::D => "D",
        Part::E => "E",
        Part::H => "H",
        Part::L => "L",
        Part::S => "S",
        Part::Z => "Z",
        Part::Ac => "AC",
        Part::P => "P",
        Part::Cy => "CY",
    }
}

/// A flag that a result leaves.
pub fn flag_words(part: Part) -> &'static str
    ensures { result.now ≡ flag_words part }
{
    match part {
        Part::S => "sign",
        Part::Z => "zero",
        Part::Ac => "half carry",
        Part::P => "parity",
        Part::Cy => "carry",
        _ => part_words(part),
    }
}

/// What stands between the operands of an operation.
pub fn sign_words(op: Op) -> &'static str
    ensures { result.now ≡ sign_words op }
{
    match op {
        Op::Add | Op::Adc => " + ",
        Op::Sub | Op::Sbb | Op::Cmp => " - ",
        Op::Ana => " AND ",
        Op::Xra => " XOR ",
        Op::Ora => " OR ",
    }
}

/// Whether the carry is an operand of an operation.
pub fn takes_carry(op: Op) -> bool
    ensures { result ≡ takes_carry op }
{
    matches!(op, Op::Adc | Op::Sbb)
}

/// Which half of a word or of a code address.
pub fn half_words(high: bool) -> &'static str
    ensures { result.now ≡ half_words high }
{
    if high { "high " } else { "low " }
}
