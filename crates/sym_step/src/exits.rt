// Where a block of the 8080 goes.

ghost use Rattle.std.specs.Prelude.{◌≡◌, cond};
ghost use Rattle.xlt_pool.specs.Contents.{Contents};
ghost use Rattle.asm80_types.specs.Program.{is_start};
ghost use Rattle.sym_block_def.specs.Outcome.{Way as WayTree, Leave};
ghost use Rattle.sym_block_def.specs.Block80.{goto, jump, call, wanted, exit80};
ghost use Rattle.sym_micro.specs.Machine.{as80};
ghost use Rattle.sym_micro.specs.Stands.{machine_of, IsReady};
ghost use Rattle.sym_micro.specs.Exits.{WayIs, FindsWay, FindsExit};
ghost use Rattle.sym_step.specs.Ways.{flag_id, taken80};

use asm80_types::Program80;
use cells::{Cond, Place};
use i80::{Goal, Instr80};
use sym_micro::{Exit, Held, Run, Way, return_way};
use sym_terms::{Term, Terms};

// A way to go, where an instruction starts at a place; where none does, the program leaves the profile.
fn if_starts(program: &Program80, a: u16, way: Way) -> Way
    ensures { (pool : Contents) (tree : WayTree) → WayIs pool tree way → WayIs pool (cond (is_start program.now a) tree Leave) result }
{
    if program.instr_at(a).is_some() {
        way
    } else {
        Way::Leave
    }
}

fn goto(program: &Program80, a: u16) -> Way
    ensures { (pool : Contents) → WayIs pool (goto program.now a) result }
{
    if_starts(program, a, Way::Goto(Place::At(a)))
}

fn jump(program: &Program80, goal: Goal) -> Way
    ensures { (pool : Contents) → WayIs pool (jump program.now goal) result }
{
    match goal {
        Goal::At(target) => goto(program, target),
        Goal::Boot => Way::Boot,
        Goal::Bdos => Way::SysReturn,
    }
}

// A call, with the place after it; one of an instruction pushes the place, which must be an instruction.
fn call(program: &Program80, next: u16, goal: Goal) -> Way
    ensures { (pool : Contents) → WayIs pool (call program.now next goal) result }
{
    match goal {
        Goal::At(target) => {
            if_starts(program, next, Way::Call(Place::At(target), Place::At(next)))
        }
        Goal::Boot => Way::Boot,
        Goal::Bdos => Way::Sys(Place::At(next)),
    }
}

// The flag of a condition.
fn flag_term(held: &Held, cond: Cond) -> Term
    ensures { result ≡ flag_id held.now cond }
{
    match cond {
        Cond::Nz | Cond::Z => held.z,
        Cond::Nc | Cond::C => held.cy,
        Cond::Po | Cond::Pe => held.p,
        Cond::P | Cond::M => held.s,
    }
}

// The flag's value where the condition holds.
fn wanted(cond: Cond) -> bool
    ensures { result ≡ wanted cond }
{
    matches!(cond, Cond::Z | Cond::C | Cond::Pe | Cond::M)
}

/// Where a block goes by its last instruction, behind which the next place is. None only where the terms had no room for a node more.
pub fn exit(
    terms: &mut Terms,
    run: &Run,
    program: &Program80,
    next: u16,
    instr: Instr80,
) -> Option<Exit>
    requires { IsReady terms.old run.now }
    ensures { FindsExit terms.old terms.new 3 (exit80 program.now next (as80 (machine_of terms.old run.now)) instr) result }
{
    let way = taken(terms, run, program, next, instr)?;
    match instr {
        Instr80::Jif(cond, _) | Instr80::Cif(cond, _) | Instr80::Rif(cond) => Some(Exit::Two(
            flag_term(&run.held, cond),
            wanted(cond),
            way,
            goto(program, next),
        )),
        _ => Some(Exit::One(way)),
    }
}

// Where an instruction goes, and where one with a condition goes if it holds. A port is asked before the next place.
fn taken(
    terms: &mut Terms,
    run: &Run,
    program: &Program80,
    next: u16,
    instr: Instr80,
) -> Option<Way>
    requires { IsReady terms.old run.now }
    ensures { FindsWay terms.old terms.new 3 (taken80 program.now next (as80 (machine_of terms.old run.now)) instr) result }
{
    match instr {
        Instr80::Pchl => Some(Way::ByTerms(run.held.h, run.held.l)),
        Instr80::Jmp(goal) | Instr80::Jif(_, goal) => Some(jump(program, goal)),
        Instr80::Call(goal) | Instr80::Cif(_, goal) => Some(call(program, next, goal)),
        Instr80::Ret | Instr80::Rif(_) => return_way(terms, run),
        Instr80::Rst0 => Some(Way::Boot),
        Instr80::In(port) => Some(if_starts(program, next, Way::In(port, Place::At(next)))),
        Instr80::Out(port) => Some(if_starts(program, next, Way::Out(port, Place::At(next)))),
        _ => Some(goto(program, next)),
    }
}
