// Results and flags of the operations (Intel 8086 Family User's Manual, "Instruction set").
ghost use Rattle.std.specs.Prelude.{◌≡◌, ◌+◌, ◌*◌, ◌/◌, ◌%◌, ◌≤◌};
ghost use Rattle.base.specs.Arithmetic.{sum8, carry8, carry4, difference8, borrow8, borrow4, as_bit, turned_left, turned_right, daa_adds_6, daa_carry, daa_result, daa_excepted};
ghost use Rattle.cpu86.specs.Flags.{flags_by, alu_result, alu_flags, count8_result, count8_flags, count16_result, count16_flags, add16_flags, rotate8_result, rotate8_carry, rotate16_result, rotate16_carry};
ghost use Rattle.cpu86.specs.ProcessorState.{flags_of_86};

use crate::flags::Flags;
use dialogue::choice_bit;
use i86::{AluOp, Count, Rotate};

/// The result of an operation on AL; ADC and SBB take the carry.
pub fn alu_result(op: AluOp, x: u8, y: u8, carry: bool) -> u8
    ensures { result ≡ alu_result op x y carry }
{
    match op {
        AluOp::Add => sum(x, y, 0),
        AluOp::Or => x | y,
        AluOp::Adc => sum(x, y, u8::from(carry)),
        AluOp::Sbb => difference(x, y, u8::from(carry)),
        AluOp::And => x & y,
        AluOp::Sub | AluOp::Cmp => difference(x, y, 0),
        AluOp::Xor => x ^ y,
    }
}

/// The flags of an operation on AL. After a logic operation CF is 0, and AF is undefined: bit 0 of the choice.
pub fn alu_flags(op: AluOp, x: u8, y: u8, carry: bool, choice: u128) -> Flags
    ensures { flags_of_86 result ≡ alu_flags op x y carry choice }
{
    match op {
        AluOp::Add => sum_flags(x, y, 0),
        AluOp::Adc => sum_flags(x, y, u8::from(carry)),
        AluOp::Sbb => difference_flags(x, y, u8::from(carry)),
        AluOp::Sub | AluOp::Cmp => difference_flags(x, y, 0),
        AluOp::Or => Flags::of_byte(x | y, choice_bit(choice, 0), false),
        AluOp::And => Flags::of_byte(x & y, choice_bit(choice, 0), false),
        AluOp::Xor => Flags::of_byte(x ^ y, choice_bit(choice, 0), false),
    }
}

fn sum_flags(x: u8, y: u8, carry: u8) -> Flags
    requires { carry ≤ 1 }
    ensures { flags_of_86 result ≡ flags_by (sum8 x y carry) (carry4 x y carry) (carry8 x y carry) }
{
    Flags::of_byte(
        sum(x, y, carry),
        sum_carries_4(x, y, carry),
        u16::from(x) + u16::from(y) + u16::from(carry) > 255,
    )
}

fn difference_flags(x: u8, y: u8, borrow: u8) -> Flags
    requires { borrow ≤ 1 }
    ensures { flags_of_86 result ≡ flags_by (difference8 x y borrow) (borrow4 x y borrow) (borrow8 x y borrow) }
{
    Flags::of_byte(
        difference(x, y, borrow),
        difference_borrows_4(x, y, borrow),
        u16::from(x) < u16::from(y) + u16::from(borrow),
    )
}

fn sum(x: u8, y: u8, carry: u8) -> u8
    ensures { result ≡ sum8 x y carry }
{
    x.wrapping_add(y).wrapping_add(carry)
}

fn difference(x: u8, y: u8, borrow: u8) -> u8
    requires { borrow ≤ 1 }
    ensures { result ≡ difference8 x y borrow }
{
    x.wrapping_sub(y).wrapping_sub(borrow)
}

// The carry out of bit 3.
fn sum_carries_4(x: u8, y: u8, carry: u8) -> bool
    requires { carry ≤ 1 }
    ensures { result ≡ carry4 x y carry }
{
    x % 16 + y % 16 + carry > 15
}

// The borrow of bit 3.
fn difference_borrows_4(x: u8, y: u8, borrow: u8) -> bool
    requires { borrow ≤ 1 }
    ensures { result ≡ borrow4 x y borrow }
{
    x % 16 < y % 16 + borrow
}

/// The result of INC or DEC of a byte.
pub fn count8_result(count: Count, x: u8) -> u8
    ensures { result ≡ count8_result count x }
{
    match count {
        Count::Inc => sum(x, 1, 0),
        Count::Dec => difference(x, 1, 0),
    }
}

/// The flags of INC or DEC of a byte, which keep CF.
pub fn count8_flags(count: Count, x: u8, carry: bool) -> Flags
    ensures { flags_of_86 result ≡ count8_flags count x carry }
{
    match count {
        Count::Inc => Flags::of_byte(sum(x, 1, 0), sum_carries_4(x, 1, 0), carry),
        Count::Dec => Flags::of_byte(difference(x, 1, 0), difference_borrows_4(x, 1, 0), carry),
    }
}

/// The result of INC or DEC of a word.
pub fn count16_result(count: Count, x: u16) -> u16
    ensures { result ≡ count16_result count x }
{
    match count {
        Count::Inc => x.wrapping_add(1),
        Count::Dec => x.wrapping_sub(1),
    }
}

/// The flags of INC or DEC of a word, which keep CF; AF is of the low byte.
pub fn count16_flags(count: Count, x: u16, carry: bool) -> Flags
    ensures { flags_of_86 result ≡ count16_flags count x carry }
{
    let value = count16_result(count, x);
    match count {
        Count::Inc => Flags::of_word(value, x % 16 == 15, carry),
        Count::Dec => Flags::of_word(value, x % 16 == 0, carry),
    }
}

/// The flags of ADD of two words; AF is of the low byte.
pub fn add16_flags(x: u16, y: u16) -> Flags
    ensures { flags_of_86 result ≡ add16_flags x y }
{
    Flags::of_word(
        x.wrapping_add(y),
        x % 16 + y % 16 > 15,
        u32::from(x) + u32::from(y) > 0xFFFF,
    )
}

/// A byte rotated by one bit; through CF the carry comes in.
pub fn rotate8_result(rotate: Rotate, value: u8, carry: bool) -> u8
    ensures { result ≡ rotate8_result rotate value carry }
{
    match rotate {
        Rotate::Rol => turn_left(value, value > 127),
        Rotate::Ror => turn_right(value, value % 2 == 1),
        Rotate::Rcl => turn_left(value, carry),
        Rotate::Rcr => turn_right(value, carry),
    }
}

/// The bit that goes out of a byte.
pub fn rotate8_carry(rotate: Rotate, value: u8) -> bool
    ensures { result ≡ rotate8_carry rotate value }
{
    match rotate {
        Rotate::Rol | Rotate::Rcl => value > 127,
        Rotate::Ror | Rotate::Rcr => value % 2 == 1,
    }
}

fn turn_left(value: u8, carry: bool) -> u8
    ensures { result ≡ turned_left value (as_bit carry) }
{
    value.wrapping_add(value).wrapping_add(u8::from(carry))
}

fn turn_right(value: u8, carry: bool) -> u8
    ensures { result ≡ turned_right value (as_bit carry) }
{
    value / 2 + 128 * u8::from(carry)
}

/// A word rotated by one bit; through CF the carry comes in.
pub fn rotate16_result(rotate: Rotate, value: u16, carry: bool) -> u16
    ensures { result ≡ rotate16_result rotate value carry }
{
    match rotate {
        Rotate::Rol => turn_word_left(value, value > 0x7FFF),
        Rotate::Ror => turn_word_right(value, value % 2 == 1),
        Rotate::Rcl => turn_word_left(value, carry),
        Rotate::Rcr => turn_word_right(value, carry),
    }
}

/// The bit that goes out of a word.
pub fn rotate16_carry(rotate: Rotate, value: u16) -> bool
    ensures { result ≡ rotate16_carry rotate value }
{
    match rotate {
        Rotate::Rol | Rotate::Rcl => value > 0x7FFF,
        Rotate::Ror | Rotate::Rcr => value % 2 == 1,
    }
}

fn turn_word_left(value: u16, carry: bool) -> u16
    ensures { result ≡ (2 * value + as_bit carry) % 0x10000 }
{
    value.wrapping_add(value).wrapping_add(u16::from(carry))
}

fn turn_word_right(value: u16, carry: bool) -> u16
    ensures { result ≡ value / 2 + 0x8000 * as_bit carry }
{
    value / 2 + 0x8000 * u16::from(carry)
}

/// A byte after decimal adjustment, and the carry.
pub fn adjusted(al: u8, half: bool, carry: bool) -> (u8, bool)
    ensures value { result.0 ≡ daa_result al half carry }
    ensures carry { result.1 ≡ daa_carry al half carry }
{
    let mut sum = u16::from(al);
    if adds_6(al, half) {
        sum += 6;
    }
    let carry = sum / 16 > 9 || carry;
    if carry {
        sum += 0x60;
    }
    ((sum % 256) as u8, carry)
}

/// Whether decimal adjustment adds 6 to the low digit.
pub fn adds_6(al: u8, half: bool) -> bool
    ensures { result ≡ daa_adds_6 al half }
{
    al % 16 > 9 || half
}

/// Where the two processors' manuals leave decimal adjustment open, or differ.
pub fn is_excepted(al: u8, half: bool, carry: bool) -> bool
    ensures { result ≡ daa_excepted al half carry }
{
    al >= 0xFA || (0x9A..=0x9F).contains(&al) && half && !carry
}
