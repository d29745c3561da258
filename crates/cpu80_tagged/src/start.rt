// The start of a program.
ghost use Rattle.std.specs.Prelude.{◌≡◌, ◌<◌, ◌≤◌, length, IfOk};
ghost use Rattle.asm80_types.specs.Program.{is_start};
ghost use Rattle.cpu80_tagged.specs.Memory.{is_closed};
ghost use Rattle.cpu80_tagged.specs.Start.{start_cell80};
ghost use Rattle.cpu80_tagged.specs.Area.{HasUses, is_closed_use, is_start_use};
ghost use Rattle.cpu80_tagged.specs.Draft.{memory_of};

use crate::area::CellUse;
use crate::processor::{Cpu80, Phase};
use crate::replies::junk;
use asm80_types::Program80;
use cells::{Cell, Flags, Place};
use dialogue::Page;
use std::alloc::{AllocError, Global};

/// The number of cells.
const MEMORY: u32 = 0x1_0000;

/// The first cell of the start page, and the first after it.
const PAGE: u16 = 0x5C;

const PROGRAM: u16 = 0x100;

/// The DMA address at the start.
const DEFAULT_DMA: u16 = 0x80;

// Whether a cell is closed: one of an instruction, of 0 to 5 or 8 to 5BH, or from the top of the program area up.
fn is_closed_cell(program: &Program80, top: u16, at: u16) -> bool
    requires { top ≡ program.now.top }
    ensures { result ≡ is_closed program.now at }
{
    at < 6 || (8..PAGE).contains(&at) || top <= at || program.is_code(at)
}

// What a program makes of a cell.
fn use_of_cell(program: &Program80, top: u16, at: u16) -> CellUse
    requires { top ≡ program.now.top }
    ensures closed { is_closed_use result ≡ is_closed program.now at }
    ensures start { is_start_use result ≡ is_start program.now at }
{
    if !is_closed_cell(program, top, at) {
        CellUse::Open
    } else if program.instr_at(at).is_some() {
        CellUse::Start
    } else {
        CellUse::Closed
    }
}

// What a program makes of each cell.
fn uses_of_cells(alloc: Global, program: &Program80) -> Result<Vec<CellUse>, AllocError>
    ensures { IfOk result (λ v. HasUses program.now v.items) }
{
    let top = program.top();
    let mut uses = Vec::with_capacity(alloc, MEMORY as usize)?;
    for at in 0..MEMORY {
        uses.push(use_of_cell(program, top, at as u16))?;
    }
    Ok(uses)
}

// What a cell holds at the start.
fn start_cell(program: &Program80, top: u16, page: &[u8], at: u16) -> Cell
    requires page { length page.now ≡ 164 }
    requires top { top ≡ program.now.top }
    requires some { 2 ≤ top }
    ensures { result ≡ start_cell80 program.now page.now at }
{
    match at {
        6 => Cell::Num((top % 256) as u8),
        7 => Cell::Num((top / 256) as u8),
        PAGE..PROGRAM => Cell::Num(page[(at - PAGE) as usize]),
        _ if at == top - 2 => Cell::Lo(Place::Exit),
        _ if at == top - 1 => Cell::Hi(Place::Exit),
        _ => program.cell_at(at).unwrap_or(Cell::Junk),
    }
}

// Memory at the start.
fn start_memory(alloc: Global, program: &Program80, page: &[u8]) -> Result<Vec<Cell>, AllocError>
    requires { length page.now ≡ 164 }
    ensures size { IfOk result (λ v. length v.items ≡ 65536) }
    ensures cells { IfOk result (λ v. memory_of v.items ≡ start_cell80 program.now page.now) }
{
    let top = program.top();
    let mut memory = Vec::with_capacity(alloc, MEMORY as usize)?;
    for at in 0..MEMORY {
        memory.push(start_cell(program, top, page, at as u16))?;
    }
    Ok(memory)
}

impl Cpu80 {
    ghost use Rattle.std.specs.Prelude.{false};
    ghost use Rattle.cpu80_tagged.specs.Start.{start80};
    ghost use Rattle.cpu80_tagged.specs.ProcessorState.{tagged_state, asks};
    ghost use Rattle.cpu80_tagged.specs.Machine.{IsMachineOf};

    /// The machine as a program begins: at 100H, with SP at the return to the end, and with a start page.
    pub fn new(alloc: Global, program: &Program80, page: &Page) -> Result<Cpu80, AllocError>
        ensures start { IfOk result (λ c. tagged_state c ≡ start80 program.now page.now) }
        ensures asked { IfOk result (λ c. asks c ≡ false) }
        ensures machine { IfOk result (λ c. IsMachineOf program.now c) }
    {
        Ok(Cpu80 {
            alloc,
            registers: junk(),
            flags: Flags::unknown(),
            sp: program.top() - 2,
            memory: start_memory(alloc, program, page.bytes())?,
            uses: uses_of_cells(alloc, program)?,
            place: Place::At(PROGRAM),
            dma: DEFAULT_DMA,
            phase: Phase::Running,
        })
    }
}
