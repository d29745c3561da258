// The start: what memory holds.
ghost use Rattle.std.specs.Prelude.{◌≡◌, true, length, slice_index, IfOk};
ghost use Rattle.asm80_types.specs.Program.{is_top};
ghost use Rattle.cpu80.specs.ProcessorState.{untagged_memory};
ghost use Rattle.i80_bytes.specs.Start.{start_bytes};
ghost use Rattle.dialogue.specs.ByteMemory.{put_cells};

use cpu80::Memory;
use std::alloc::{AllocError, Global};

/// The cell with the low byte of the top of the area.
const TOP: u16 = 6;

/// The first cell of the start page.
const PAGE: u16 = 0x5C;

/// Memory at the start: the fill, over it the cells, and over them the page, the top of the area, and the return to the end, which is 0.
pub fn start_memory(
    alloc: Global,
    cells: &[(u16, u8)],
    top: u16,
    page: &[u8],
    fill: &[u8],
) -> Result<Memory, AllocError>
    requires top { is_top top ≡ true }
    requires page { length page.now ≡ 164 }
    requires fill { length fill.now ≡ 0x10000 }
    ensures { IfOk result (λ m. untagged_memory m ≡ start_bytes cells.now top page.now fill.now) }
{
    let mut memory = with_cells(alloc, cells, fill)?;
    memory.set_bytes(PAGE, page);
    memory.set_word(TOP, (top / 256) as u8, (top % 256) as u8);
    memory.set_word(top - 2, 0, 0);
    Ok(memory)
}

// The fill, and the cells over it.
fn with_cells(alloc: Global, cells: &[(u16, u8)], fill: &[u8]) -> Result<Memory, AllocError>
    requires { length fill.now ≡ 0x10000 }
    ensures { IfOk result (λ m. untagged_memory m ≡ put_cells (λ a. slice_index fill.now a) cells.now) }
{
    let mut memory = Memory {
        bytes: Vec::from_slice(alloc, fill)?,
    };
    for (at, byte) in cells {
        memory.set(*at, *byte);
    }
    Ok(memory)
}
