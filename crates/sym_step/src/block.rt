// A block of the 8080.

ghost use Rattle.std.specs.Prelude.{◌≡◌, ◌+◌, ◌*◌, ◌<◌, ◌≤◌, false, Some, IsSome, IsTrue};
ghost use Rattle.std.specs.Vec.{vec_capacity};
ghost use Rattle.i80.specs.Columns.{is_well_formed, length80};
ghost use Rattle.asm80_types.specs.Program.{instr_at};
ghost use Rattle.sym_block_def.specs.Block80.{MayRun, block80};
ghost use Rattle.sym_micro.specs.Exits.{RunsTo};

use crate::exits::exit;
use crate::steps80::step80;
use asm80_types::Program80;
use cells::Keep;
use i80::{Instr80, length};
use sym_micro::{Exit, Run, begin};
use sym_terms::Terms;

/// What a block of so many instructions does, from its first address on: the run is that of its outcome, and its exit is the answer. None
/// only where the terms had no room for a node more.
pub fn run_block(
    terms: &mut Terms,
    run: &mut Run,
    program: &Program80,
    first: u16,
    count: u32,
) -> Option<Exit>
    requires capacity { vec_capacity run.old.actions ≡ 512 }
    requires block { MayRun program.now first count }
    ensures { RunsTo terms.old terms.new run.new (24 * count + 32) false (block80 program.now first count) result }
{
    begin(terms, run, Keep::all())?;
    let mut at = first;
    let mut near = 0;
    for _done in 1..count {
        let (place, instr) = instr_near(program, near, at);
        step80(terms, run, instr)?;
        at += length(instr);
        near = place + 1;
    }
    let (_, last) = instr_near(program, near, at);
    step80(terms, run, last)?;
    exit(terms, run, program, at + length(last), last)
}

// The instruction that starts at an address, with its place, which is looked for first at one that it may well have.
fn instr_near(program: &Program80, near: usize, at: u16) -> (usize, Instr80)
    requires { IsSome (instr_at program.now at) }
    ensures found { instr_at program.now at ≡ Some result.1 }
    ensures few { result.0 < 65022 }
    ensures well_formed { IsTrue (is_well_formed result.1) }
    ensures within { at + length80 result.1 ≤ 0xFF00 }
{
    match program.instr_near(near, at) {
        Some(found) => found,
        None => unreachable!(),
    }
}
