// A block on both sides.

ghost use Rattle.cases_symrun.specs.Given.{IsRun};

use crate::blocks::is_block;
use asm80_types::Program80;
use cells::Keep;
use sym_run::{Index86, Reason, Work};

/// Runs a block and the text at its label, with these parts kept, from the beginning. None where there is no such block or no room.
pub fn run_both(
    work: &mut Work,
    program: &Program80,
    text: &Index86,
    leader: u16,
    count: u32,
    keep: Keep,
) -> Option<Result<(), Reason>>
    ensures { IsRun result work.new }
{
    if !is_block(program, leader, count) {
        return None;
    }
    work.reset();
    work.keep(keep);
    work.run80(program, leader, count)?;
    work.run86(program, text, leader, count)
}
