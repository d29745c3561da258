// Numbers in cells, and arithmetic on bytes (Intel 8080 Assembly Language Programming Manual, "Condition bits").
ghost use Rattle.std.specs.Prelude.{◌≡◌, ◌≤◌, IfOk};
ghost use Rattle.base.specs.Arithmetic.{daa_result, daa_carry, daa_excepted};
ghost use Rattle.cpu80_tagged.specs.State.{num_of, num_or};
ghost use Rattle.cpu80_tagged.specs.Memory.{address};
ghost use Rattle.base.specs.Operations.{flags_by, result_of, flags_of};
ghost use Rattle.cpu80_tagged.specs.Effect.{carry_for};

use cells::{Cell, Flags, Rule};
use dialogue::join;
use i80::Op;

/// The number in a cell, if it holds one.
pub fn number_in(cell: Cell) -> Option<u8>
    ensures { result ≡ num_of cell }
{
    match cell {
        Cell::Num(n) => Some(n),
        _ => None,
    }
}

/// The number in a cell; without one the rule is broken.
pub fn number(cell: Cell, rule: Rule) -> Result<u8, Rule>
    ensures { result ≡ num_or rule cell }
{
    match cell {
        Cell::Num(n) => Ok(n),
        _ => Err(rule),
    }
}

/// The address in two cells: P8 where one of them holds no number.
pub fn address_in(high: Cell, low: Cell) -> Result<u16, Rule>
    ensures { result ≡ address high low }
{
    match (high, low) {
        (Cell::Num(high), Cell::Num(low)) => Ok(join(high, low)),
        _ => Err(Rule::P8),
    }
}

/// The carry that an operation takes: CY for ADC and SBB (P6 where it is unknown), else 0.
pub fn carry_in(op: Op, flags: Flags) -> Result<u8, Rule>
    ensures value { result ≡ carry_for op flags }
    ensures bit { IfOk result (λ c. c ≤ 1) }
{
    match op {
        Op::Adc | Op::Sbb => match flags.cy {
            Some(carry) => Ok(u8::from(carry)),
            None => Err(Rule::P6),
        },
        Op::Add | Op::Sub | Op::Ana | Op::Xra | Op::Ora | Op::Cmp => Ok(0),
    }
}

/// The flags of a byte, with these AC and CY.
pub fn byte_flags(value: u8, ac: Option<bool>, cy: Option<bool>) -> Flags
    ensures { result ≡ flags_by value ac cy }
{
    Flags {
        s: Some(value > 127),
        z: Some(value == 0),
        ac,
        p: Some(value.count_ones() % 2 == 0),
        cy,
    }
}

/// The result of an operation on two bytes and a carry.
pub fn outcome(op: Op, x: u8, y: u8, carry: u8) -> u8
    requires { carry ≤ 1 }
    ensures { result ≡ result_of op x y carry }
{
    let sum = u16::from(x) + u16::from(y) + u16::from(carry);
    let difference = u16::from(x) + 256 - (u16::from(y) + u16::from(carry));
    match op {
        Op::Add | Op::Adc => (sum % 256) as u8,
        Op::Sub | Op::Sbb | Op::Cmp => (difference % 256) as u8,
        Op::Ana => x & y,
        Op::Xra => x ^ y,
        Op::Ora => x | y,
    }
}

/// The flags of an operation: AC is known after an addition alone.
pub fn outcome_flags(op: Op, x: u8, y: u8, carry: u8) -> Flags
    requires { carry ≤ 1 }
    ensures { result ≡ flags_of op x y carry }
{
    let value = outcome(op, x, y, carry);
    match op {
        Op::Add | Op::Adc => {
            let half = x % 16 + y % 16 + carry > 15;
            let full = u16::from(x) + u16::from(y) + u16::from(carry) > 255;
            byte_flags(value, Some(half), Some(full))
        }
        Op::Sub | Op::Sbb | Op::Cmp => {
            let borrow = u16::from(x) < u16::from(y) + u16::from(carry);
            byte_flags(value, None, Some(borrow))
        }
        Op::Ana | Op::Xra | Op::Ora => byte_flags(value, None, Some(false)),
    }
}

/// A byte after decimal adjustment, and CY.
pub fn adjusted(value: u8, half: bool, carry: bool) -> (u8, bool)
    ensures value { result.0 ≡ daa_result value half carry }
    ensures carry { result.1 ≡ daa_carry value half carry }
{
    let mut sum = u16::from(value);
    if value % 16 > 9 || half {
        sum += 6;
    }
    let carry = sum / 16 > 9 || carry;
    if carry {
        sum += 0x60;
    }
    ((sum % 256) as u8, carry)
}

/// Where the two processors' manuals leave the adjustment open, or differ.
pub fn is_excepted(value: u8, half: bool, carry: bool) -> bool
    ensures { result ≡ daa_excepted value half carry }
{
    value >= 0xFA || (0x9A..=0x9F).contains(&value) && half && !carry
}
