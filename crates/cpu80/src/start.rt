// The start of a program: what memory holds.
ghost use Rattle.std.specs.Prelude.{◌≡◌, ◌%◌, ◌/◌, ◌≤◌, length, IfOk};
ghost use Rattle.cpu80.specs.Start.{address_of, datum_or, start_byte, start_over};
ghost use Rattle.cpu80.specs.ProcessorState.{untagged_memory, untagged_state};

use crate::flags::FlagBits;
use crate::memory::Memory;
use crate::processor::Processor;
use crate::registers::Registers;
use asm80_types::Program80;
use cells::{Cell, Place};
use std::alloc::{AllocError, Global};

/// The number of cells.
const MEMORY: u32 = 0x1_0000;

/// The first cell of the start page, and the first after it, where a program begins.
const PAGE: u16 = 0x5C;

const PROGRAM: u16 = 0x100;

/// The DMA address at the start.
const DEFAULT_DMA: u16 = 0x80;

// The address of a place: a code address is the 8080 address, EXIT is 0.
fn address_of(place: Place) -> u16
    ensures { result ≡ address_of place }
{
    match place {
        Place::At(at) => at,
        Place::Exit => 0,
    }
}

/// The byte of a data cell, which is a number or the half of an 8080 address; where there is none, this byte.
pub fn datum_or(cell: Option<Cell>, byte: u8) -> u8
    ensures { result ≡ datum_or cell byte }
{
    match cell {
        Some(Cell::Num(number)) => number,
        Some(Cell::Lo(place)) => (address_of(place) % 256) as u8,
        Some(Cell::Hi(place)) => (address_of(place) / 256) as u8,
        _ => byte,
    }
}

// The byte of a cell at the start.
fn start_byte(program: &Program80, top: u16, page: &[u8], fill: &[u8], at: u16) -> u8
    requires page { length page.now ≡ 164 }
    requires fill { length fill.now ≡ 0x10000 }
    requires top { top ≡ program.now.top }
    requires some { 2 ≤ top }
    ensures { result ≡ start_byte program.now page.now fill.now at }
{
    match at {
        6 => (top % 256) as u8,
        7 => (top / 256) as u8,
        PAGE..PROGRAM => page[(at - PAGE) as usize],
        _ if at == top - 2 || at == top - 1 => 0,
        _ => datum_or(program.cell_at(at), fill[at as usize]),
    }
}

/// Memory at the start.
pub fn start_memory(
    alloc: Global,
    program: &Program80,
    page: &[u8],
    fill: &[u8],
) -> Result<Memory, AllocError>
    requires page { length page.now ≡ 164 }
    requires fill { length fill.now ≡ 0x10000 }
    ensures { IfOk result (λ m. untagged_memory m ≡ start_byte program.now page.now fill.now) }
{
    let top = program.top();
    let mut bytes = Vec::with_capacity(alloc, MEMORY as usize)?;
    for at in 0..MEMORY {
        bytes.push_reserved(start_byte(program, top, page, fill, at as u16));
    }
    Ok(Memory { bytes })
}

/// The processor at the start, with its memory: at 100H, with SP at T-2, where T is the top of the area. A, B, C, D, E, H and L
/// are bytes 8 to 14 of the fill, and S, Z, AC, P and CY are bits 0 to 4 of its byte 15.
pub fn start_processor(top: u16, fill: &[u8], memory: Memory) -> Processor
    requires fill { length fill.now ≡ 0x10000 }
    requires top { 2 ≤ top }
    ensures { untagged_state result ≡ start_over top fill.now (untagged_memory memory) }
{
    Processor {
        registers: Registers {
            a: fill[8],
            b: fill[9],
            c: fill[10],
            d: fill[11],
            e: fill[12],
            h: fill[13],
            l: fill[14],
        },
        flags: FlagBits::of_choice(u128::from(fill[15]), 0),
        sp: top - 2,
        memory,
        place: Place::At(PROGRAM),
        dma: DEFAULT_DMA,
    }
}
