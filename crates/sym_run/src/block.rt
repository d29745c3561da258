// The addresses of a block.

ghost use Rattle.std.specs.Prelude.{◌≡◌, take, drop, ◌-◌};
ghost use Rattle.sym_block_def.specs.Block80.{MayRun, instrs_from, address_after_all, addresses_from};

use asm80_types::Program80;
use i80::length;

/// The addresses of the instructions of a block, of which there are so many, in front of others; and the address after the block.
pub fn addresses(program: &Program80, first: u16, count: u32) -> ([u16; 16], u16)
    requires { MayRun program.now first count }
    ensures later { take (count - 1) (drop 1 result.0) ≡ drop 1 (addresses_from first (instrs_from program.now first count)) }
    ensures after { result.1 ≡ address_after_all first (instrs_from program.now first count) }
{
    let mut addresses = [0; 16];
    let mut at = first;
    let mut near = 0;
    for done in 0..count {
        let Some((place, instr)) = program.instr_near(near, at) else {
            unreachable!();
        };
        addresses[done as usize] = at;
        at += length(instr);
        near = place + 1;
    }
    (addresses, at)
}
