// The start of a program: what memory holds.
ghost use Rattle.std.specs.Prelude.{◌≡◌, length, IfOk};
ghost use Rattle.cpu86.specs.ProcessorState.{memory_of_86};
ghost use Rattle.cpu86.specs.Start.{start_byte};
ghost use Rattle.dialogue.specs.ByteMemory.{put_cells};

use crate::memory::Memory;
use std::alloc::{AllocError, Global};

/// The cells that the start page takes.
const PAGE_START: usize = 0x5C;

const PAGE_END: usize = 0x100;

/// Memory at the start: the fill, over it the page from cell 5CH up, and over both the data cells.
pub fn start_memory(
    alloc: Global,
    fill: &[u8],
    page: &[u8],
    cells: &[(u16, u8)],
) -> Result<Memory, AllocError>
    requires fill { length fill.now ≡ 0x10000 }
    requires page { length page.now ≡ 164 }
    ensures { IfOk result (λ m. memory_of_86 m ≡ put_cells (start_byte fill.now page.now) cells.now) }
{
    let mut memory = filled(alloc, fill, page)?;
    for (at, byte) in cells {
        memory.set(*at, *byte);
    }
    Ok(memory)
}

// The fill, and the page over it.
fn filled(alloc: Global, fill: &[u8], page: &[u8]) -> Result<Memory, AllocError>
    requires fill { length fill.now ≡ 0x10000 }
    requires page { length page.now ≡ 164 }
    ensures { IfOk result (λ m. memory_of_86 m ≡ start_byte fill.now page.now) }
{
    let mut bytes = Vec::from_slice(alloc, fill)?;
    bytes.as_mut_slice()[PAGE_START..PAGE_END].copy_from_slice(page);
    Ok(Memory { bytes })
}
