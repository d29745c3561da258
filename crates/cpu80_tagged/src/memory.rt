// Writes to the 64K of cells.
ghost use Rattle.std.specs.Prelude.{◌≡◌, ◌+◌, ◌≤◌, length, IsTrue, All};
ghost use Rattle.cpu80_tagged.specs.Memory.{put};
ghost use Rattle.cpu80_tagged.specs.Call.{put_bytes, put_blocks};
ghost use Rattle.cpu80_tagged.specs.Draft.{memory_of, memory_written};
ghost use Rattle.cpu80_tagged.specs.Sight.{closed_in};
ghost use Rattle.cpu80_tagged.specs.Write.{write_fits};
ghost use Rattle.cpu80_tagged.specs.Reply.{Fits, spoiled_cells};

use crate::area::CellUse;
use crate::draft::Write;
use cells::Cell;
use dialogue::Block;

// A cell becomes another.
fn put(memory: &mut [Cell], at: u16, cell: Cell)
    requires { length memory.old ≡ 65536 }
    ensures { memory_of memory.new ≡ put (memory_of memory.old) at cell }
{
    memory[at as usize] = cell;
}

/// Makes a write that an instruction left.
pub fn make(memory: &mut [Cell], write: Write)
    requires full { length memory.old ≡ 65536 }
    requires fits { IsTrue (write_fits write) }
    ensures { memory_of memory.new ≡ memory_written write (memory_of memory.old) }
{
    match write {
        Write::Nothing => {}
        Write::Cell(at, cell) => put(memory, at, cell),
        Write::Word(at, word) => {
            put(memory, at, word.low);
            put(memory, at + 1, word.high);
        }
    }
}

// A reply's bytes, as numbers, from an address up.
fn put_bytes(memory: &mut [Cell], at: u16, bytes: &[u8])
    requires full { length memory.old ≡ 65536 }
    requires fits { at + length bytes.now ≤ 0x10000 }
    ensures { memory_of memory.new ≡ put_bytes (memory_of memory.old) at bytes.now }
{
    for (k, byte) in bytes.iter().enumerate() {
        memory[at as usize + k] = Cell::Num(*byte);
    }
}

/// A reply's blocks.
pub fn put_blocks(memory: &mut [Cell], blocks: &[Block])
    requires full { length memory.old ≡ 65536 }
    requires fits { All Fits blocks.now }
    ensures { memory_of memory.new ≡ put_blocks (memory_of memory.old) blocks.now }
{
    for block in blocks {
        put_bytes(memory, block.at, block.bytes.as_slice());
    }
}

/// Nothing is known of the eight cells below SP that are not closed.
pub fn spoil(memory: &mut [Cell], uses: &[CellUse], sp: u16)
    requires full { length memory.old ≡ 65536 }
    requires all { length uses.now ≡ 65536 }
    ensures { memory_of memory.new ≡ spoiled_cells 8 (closed_in uses.now) sp (memory_of memory.old) }
{
    for k in 0..8 {
        let at = sp.wrapping_sub(k + 1);
        if !uses[at as usize].is_closed() {
            memory[at as usize] = Cell::Junk;
        }
    }
}
