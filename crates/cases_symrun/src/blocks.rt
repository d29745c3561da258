// Whether there is a block.

ghost use Rattle.std.specs.Prelude.{◌≡◌, true};
ghost use Rattle.sym_block_def.specs.Block80.{MayRun};
ghost use Rattle.cases_symrun.specs.Given.{Follow};

use asm80_types::Program80;
use i80::{ends, length};

// Whether so many instructions stand one after the other from an address on, of which only the last may end a block.
fn follow(program: &Program80, at: u16, left: u32) -> bool
    ensures { result ≡ true → Follow program.now at left }
{
    if left == 0 {
        return true;
    }
    let Some(instr) = program.instr_at(at) else {
        return false;
    };
    (left == 1 || !ends(instr)) && follow(program, at + length(instr), left - 1)
}

/// Whether a block of so many instructions begins there.
pub fn is_block(program: &Program80, first: u16, count: u32) -> bool
    ensures { result ≡ true → MayRun program.now first count }
{
    0 < count && count <= 16 && follow(program, first, count)
}
