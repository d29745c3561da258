// The 8080 that fetches bytes follows the tagged 8080, and a program's cells are cells of a HEX file.

ghost use Rattle.asm80_types.specs.Program.{Program, IsProgram};
ghost use Rattle.hex_file.specs.Written.{AreCells};
ghost use Rattle.i80_bytes.specs.Cells.{program_cells};
ghost use Rattle.i80_bytes.specs.Follows.{BytesFollow};

use cpu80::fetches_follow;

/// A law, of every program, start page, fill of memory, list of choices, list of replies of bytes, and number of turns: where the
/// tagged machine's run has stayed in the profile, an 8080 that takes its instructions from the bytes of memory has the same dialogue
/// over the program's cells, and has not stopped.
pub fn bytes_follow()
    ensures { BytesFollow }
{
    fetches_follow();
}

/// A law: the cells of a program are bytes at 16-bit addresses that ascend, so that a HEX file has them.
pub fn program_cells_are_cells()
    ensures { (p : Program) → IsProgram p → AreCells (program_cells p) }
{}
