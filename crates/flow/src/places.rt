// Places within a block.
ghost use Rattle.std.specs.Prelude.{◌≡◌};
ghost use Rattle.flow.specs.Blocks.{place_after};

use asm80_types::Program80;
use i80::length;

/// The address after so many instructions that stand one after the other from an address on.
pub fn place_after(program: &Program80, first: u16, count: u32) -> u16
    ensures { result ≡ place_after program.now first count }
{
    let mut at = first;
    for _passed in 0..count {
        if let Some(instr) = program.instr_at(at) {
            at += length(instr);
        }
    }
    at
}
