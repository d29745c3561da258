// DAA of the 8080 at each byte, with each AC and CY.
ghost use Rattle.std.specs.Prelude.{◌≡◌, length};

use crate::words::push_number;
use cells::Cell::{Junk, Num};
use cells::{Cell, Flags, Place, Rule};
use cpu80_tagged::draft::{Draft, Write};
use cpu80_tagged::registers::Registers;
use std::alloc::{AllocError, Global};

/// DAA (8080 Assembly Language Programming Manual, "Decimal adjust accumulator"): the byte that it leaves, and CY.
///
/// (1) If the least significant four bits of the accumulator represent a number greater than 9, or if the auxiliary carry bit
/// is one, the accumulator is incremented by six. (2) If the most significant four bits of the accumulator now represent a
/// number greater than 9, or if the normal carry bit is one, the most significant four bits are incremented by six. If a
/// carry out of the most significant four bits occurs during step (2), the normal carry bit is set; else it is unaffected.
fn adjusted_by_the_manual(accumulator: u8, auxiliary_carry: bool, carry: bool) -> (u8, bool) {
    let mut least = accumulator & 0x0F;
    let mut most = accumulator >> 4;
    let mut carry = carry;
    if least > 9 || auxiliary_carry {
        least += 6;
        most += least >> 4;
        least &= 0x0F;
    }
    if most > 9 || carry {
        most += 6;
        carry |= most > 15;
        most &= 0x0F;
    }
    (most << 4 | least, carry)
}

/// Where the manuals of the two processors disagree, or the 8086's says nothing.
fn is_open(accumulator: u8, auxiliary_carry: bool, carry: bool) -> bool {
    match accumulator {
        0xFA..=0xFF => true,
        0x9A..=0x9F => auxiliary_carry && !carry,
        _ => false,
    }
}

/// The flags of a byte after an adjustment, of which AC is not known.
fn flags_of(value: u8, carry: bool) -> Flags {
    Flags {
        s: Some(value & 0x80 != 0),
        z: Some(value == 0),
        ac: None,
        p: Some(value.count_ones() % 2 == 0),
        cy: Some(carry),
    }
}

/// A state of which A, AC and CY are known.
fn draft_of(memory: &[Cell], accumulator: u8, auxiliary_carry: bool, carry: bool) -> Draft<'_>
    requires { length memory.now ≡ 65536 }
{
    Draft {
        registers: Registers {
            a: Num(accumulator),
            b: Junk,
            c: Junk,
            d: Junk,
            e: Junk,
            h: Junk,
            l: Junk,
        },
        flags: Flags {
            ac: Some(auxiliary_carry),
            cy: Some(carry),
            ..Flags::unknown()
        },
        sp: 0xEFFE,
        memory,
        place: Place::At(0x100),
        dma: 0x80,
        write: Write::Nothing,
    }
}

/// What A and the flags hold after an adjustment, or the rule that is broken.
fn adjusted(
    memory: &[Cell],
    accumulator: u8,
    auxiliary_carry: bool,
    carry: bool,
) -> Result<(Cell, Flags), Rule>
    requires { length memory.now ≡ 65536 }
{
    let mut draft = draft_of(memory, accumulator, auxiliary_carry, carry);
    draft.adjust()?;
    Ok((draft.registers.a, draft.flags))
}

/// How many of the 1,024 bytes with AC and CY are adjusted as by the manual, and are refused where that is open.
pub fn answer(alloc: Global) -> Result<String, AllocError> {
    let memory = vec![in alloc; Junk; 0x1_0000]?;
    let mut count = 0u32;
    for case in 0..1024u16 {
        if is_adjusted(
            memory.as_slice(),
            (case / 4) as u8,
            case & 2 != 0,
            case & 1 != 0,
        ) {
            count = count.saturating_add(1);
        }
    }
    let mut text = String::new(alloc);
    push_number(&mut text, " ", count)?;
    text.push_str(" as by the manual")?;
    Ok(text)
}

fn is_adjusted(memory: &[Cell], accumulator: u8, auxiliary_carry: bool, carry: bool) -> bool
    requires { length memory.now ≡ 65536 }
{
    let (value, left) = adjusted_by_the_manual(accumulator, auxiliary_carry, carry);
    let wanted = if is_open(accumulator, auxiliary_carry, carry) {
        Err(Rule::P7)
    } else {
        Ok((Num(value), flags_of(value, left)))
    };
    adjusted(memory, accumulator, auxiliary_carry, carry) == wanted
}
