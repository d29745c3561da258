// States of the tagged 8080 as words, `a=41`, `flags=S-A-C` or `effc=lo0100`, a place and what is known to stand there.
use crate::words::{push_byte, push_word};
use cells::{Cell, Flags, Place};
use cpu80_tagged::draft::Draft;
use cpu80_tagged::registers::Registers;
use std::alloc::{AllocError, Global};

/// What a machine held.
#[derive(Drop)]
pub struct Held {
    registers: Registers,
    flags: Flags,
    sp: u16,
    place: Place,
    dma: u16,
    memory: Vec<Cell>,
}

impl Held {
    /// A copy of what a machine holds.
    pub fn of(alloc: Global, draft: &Draft<'_>) -> Result<Held, AllocError> {
        Ok(Held {
            registers: draft.registers,
            flags: draft.flags,
            sp: draft.sp,
            place: draft.place,
            dma: draft.dma,
            memory: Vec::from_slice(alloc, draft.memory)?,
        })
    }
}

/// Adds the places in which what is held differs from what was held before.
pub fn push_changes(text: &mut String, before: &Held, after: &Draft<'_>) -> Result<(), AllocError> {
    push_registers(text, before.registers, after.registers)?;
    if before.flags != after.flags {
        push_flags(text, " flags=", after.flags, "")?;
    }
    push_changed_word(text, " sp=", before.sp, after.sp)?;
    if before.place != after.place {
        push_place(text, " place=", after.place)?;
    }
    push_changed_word(text, " dma=", before.dma, after.dma)?;
    push_memory(text, before.memory.as_slice(), after.memory)
}

fn push_registers(text: &mut String, old: Registers, new: Registers) -> Result<(), AllocError> {
    push_changed_cell(text, " a=", old.a, new.a)?;
    push_changed_cell(text, " b=", old.b, new.b)?;
    push_changed_cell(text, " c=", old.c, new.c)?;
    push_changed_cell(text, " d=", old.d, new.d)?;
    push_changed_cell(text, " e=", old.e, new.e)?;
    push_changed_cell(text, " h=", old.h, new.h)?;
    push_changed_cell(text, " l=", old.l, new.l)
}

fn push_changed_cell(
    text: &mut String,
    name: &str,
    old: Cell,
    new: Cell,
) -> Result<(), AllocError> {
    if old == new {
        return Ok(());
    }
    push_cell(text, name, new)
}

fn push_changed_word(text: &mut String, name: &str, old: u16, new: u16) -> Result<(), AllocError> {
    if old == new {
        return Ok(());
    }
    push_word(text, name, new)
}

// Adds the cells of memory that differ.
fn push_memory(text: &mut String, before: &[Cell], after: &[Cell]) -> Result<(), AllocError> {
    let mut at = 0u16;
    for (old, new) in before.iter().zip(after) {
        if *old != *new {
            push_word(text, " ", at)?;
            push_cell(text, "=", *new)?;
        }
        at = at.wrapping_add(1);
    }
    Ok(())
}

// Adds what a cell holds: a number, a half of an address, a byte of flags, or nothing known.
fn push_cell(text: &mut String, name: &str, cell: Cell) -> Result<(), AllocError> {
    text.push_str(name)?;
    match cell {
        Cell::Num(byte) => push_byte(text, "", byte),
        Cell::Lo(place) => push_place(text, "lo", place),
        Cell::Hi(place) => push_place(text, "hi", place),
        Cell::Psw(flags) => push_flags(text, "psw(", flags, ")"),
        Cell::Junk => text.push('?'),
    }
}

fn push_place(text: &mut String, name: &str, place: Place) -> Result<(), AllocError> {
    match place {
        Place::At(at) => push_word(text, name, at),
        Place::Exit => write!(text, "{name}exit"),
    }
}

// Adds the five flags between two texts.
fn push_flags(text: &mut String, name: &str, flags: Flags, end: &str) -> Result<(), AllocError> {
    let s = flag_letter(flags.s, 'S');
    let z = flag_letter(flags.z, 'Z');
    let a = flag_letter(flags.ac, 'A');
    let p = flag_letter(flags.p, 'P');
    let c = flag_letter(flags.cy, 'C');
    write!(text, "{name}{s}{z}{a}{p}{c}{end}")
}

// Its letter where a flag is set, `-` where it is clear, and `?` where it is not known.
fn flag_letter(flag: Option<bool>, letter: char) -> char {
    match flag {
        Some(true) => letter,
        Some(false) => '-',
        None => '?',
    }
}
