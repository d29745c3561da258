// The ways behind a conditional jump: labels and jumps, and then a call or a return.

ghost use Rattle.std.specs.Prelude.{◌≡◌, List, Result, Ok, None};
ghost use Rattle.asm86_line_types.specs.declared.line.Stmt86.{Stmt86 as Statement};
ghost use Rattle.asm86_line_types.specs.declared.line.Stmt86.TheVariants.{Run as Running};
ghost use Rattle.sym_block_def.specs.declared.reason.Reason.{Reason as Refusal};
ghost use Rattle.sym_block_def.specs.Outcome.{Way as WayTree, Two};
ghost use Rattle.sym_block_def.specs.Symbolic86.{Symbolic86};
ghost use Rattle.sym_block_def.specs.Walk86.{Surroundings, call_way, end_at, jump_to, met, way_by, way_from, flag_of_jump, jumps_at};
ghost use Rattle.sym_micro.specs.Machine.{as86};
ghost use Rattle.sym_micro.specs.Stands.{machine_of, trees_of_held, IsReady};
ghost use Rattle.sym_micro.specs.Exits.{FindsWay, FindsExit};
ghost use Rattle.sym_run.specs.Around.{surroundings_of};
ghost use Rattle.sym_run.specs.Ends.{WayStands, LastIs, LastStands, BothStand, both, target, flag_id};

use crate::around::{Around, Met, back_from_call, back_from_system, behind, meets, way_to};
use asm86_line_types::{Jump, Label, Stmt86};
use cells::Place;
use i86::Instr86;
use sym_block_def::Reason;
use sym_micro::{Exit, Held, Run, Way, return_way};
use sym_terms::{Term, Terms};

/// The end of a way; the terms of a return and of a jump by BX are made only when the way is known to end.
#[derive(Clone, Copy)]
pub enum Last {
    /// A way without terms.
    Known(Way),
    Return,
    ByBx,
}

/// The way of a call, behind which so much stands.
pub fn call_way(around: &Around<'_>, rest: &[Stmt86], label: Label) -> Result<Way, Reason>
    ensures { WayStands (call_way (surroundings_of around.now) rest.now label) result }
{
    match label {
        Label::At(a) => Ok(Way::Call(Place::At(a), back_from_call(around, rest))),
        Label::Sys => Ok(Way::Sys(back_from_system(around, rest))),
        Label::End | Label::Skip(_) | Label::User(_) => Err(Reason::Form),
    }
}

// A label that is not passed ends the way.
fn end_at(label: Label) -> Result<Last, Reason>
    ensures { (s : Symbolic86) → LastStands s (end_at Ok label) result }
{
    match way_to(label) {
        Some(way) => Ok(Last::Known(way)),
        None => Err(Reason::Form),
    }
}

// The label to which an instruction jumps, if it is a jump.
fn target(stmt: Stmt86) -> Option<Label>
    ensures { result ≡ target stmt }
{
    match stmt {
        Stmt86::Jmp(label) | Stmt86::Jmps(label) => Some(label),
        _ => None,
    }
}

// The end of a way at an instruction without a label.
fn last_of(instr: Instr86) -> Result<Last, Reason>
    ensures { (w : Surroundings) (s : Symbolic86) (on : List Statement → Result WayTree Refusal) (rest : List Statement) → LastStands s (way_by w s on rest (Running instr)) result }
{
    match instr {
        Instr86::Ret => Ok(Last::Return),
        Instr86::JmpBx => Ok(Last::ByBx),
        _ => Err(Reason::Form),
    }
}

// The end of a way at an instruction that is no jump.
fn last_at(around: &Around<'_>, stmt: Stmt86, rest: &[Stmt86]) -> Result<Last, Reason>
    requires { target stmt ≡ None }
    ensures { (s : Symbolic86) (on : List Statement → Result WayTree Refusal) → LastStands s (way_by (surroundings_of around.now) s on rest.now stmt) result }
{
    match stmt {
        Stmt86::Call(label) => Ok(Last::Known(call_way(around, rest, label)?)),
        Stmt86::Run(instr) => last_of(instr),
        _ => Err(Reason::Form),
    }
}

// The end of the way from a place on, with so many instructions left to it.
#[cycle(ways)]
fn way_from(around: &Around<'_>, room: u32, from: &[Stmt86]) -> Result<Last, Reason>
    ensures { (s : Symbolic86) → LastStands s (way_from (surroundings_of around.now) s room (met (surroundings_of around.now) from.now)) result }
{
    match meets(around, from) {
        Met::EndsAt(label) => end_at(label),
        Met::Nothing => Err(Reason::Form),
        Met::Instruction(stmt, rest) => {
            if room == 0 {
                return Err(Reason::Length);
            }
            match target(stmt) {
                Some(label) => jump_from(around, room - 1, label),
                None => last_at(around, stmt, rest),
            }
        }
    }
}

// The end of the way by a jump.
#[cycle(ways)]
fn jump_from(around: &Around<'_>, room: u32, label: Label) -> Result<Last, Reason>
    ensures { (s : Symbolic86) → LastStands s (jump_to (surroundings_of around.now) Ok (λ xs. way_from (surroundings_of around.now) s room (met (surroundings_of around.now) xs)) label) result }
{
    if let Some(way) = way_to(label) {
        return Ok(Last::Known(way));
    }
    match behind(around, label) {
        Some(rest) => way_from(around, room, rest),
        None => Err(Reason::Form),
    }
}

/// The two ends behind a conditional jump: first the way straight on, then that of the jump.
pub fn both_from(
    around: &Around<'_>,
    room: u32,
    rest: &[Stmt86],
    label: Label,
) -> Result<(Last, Last), Reason>
    ensures { (s : Symbolic86) → BothStand s (both (surroundings_of around.now) room rest.now s label) result }
{
    let straight = way_from(around, room, rest)?;
    let jumped = jump_from(around, room, label)?;
    Ok((straight, jumped))
}

/// The way that ends so. None only where the terms had no room for a node more.
pub fn way_of(terms: &mut Terms, run: &Run, last: Last) -> Option<Way>
    requires { IsReady terms.old run.now }
    ensures ready { IsReady terms.new run.now }
    ensures finds { (tree : WayTree) → LastIs (as86 (machine_of terms.old run.now)) tree last → FindsWay terms.old terms.new 3 tree result }
{
    match last {
        Last::Known(way) => Some(way),
        Last::Return => return_way(terms, run),
        Last::ByBx => Some(Way::ByTerms(run.held.h, run.held.l)),
    }
}

// The flag of a conditional jump.
fn flag_of_jump(held: &Held, jump: Jump) -> Term
    ensures { result ≡ flag_id held.now jump }
{
    match jump {
        Jump::Jb | Jump::Jnb => held.cy,
        Jump::Jz | Jump::Jnz => held.z,
        Jump::Js | Jump::Jns => held.s,
        Jump::Jp | Jump::Jnp => held.p,
    }
}

// The flag's value at which it jumps.
fn jumps_at(jump: Jump) -> bool
    ensures { result ≡ jumps_at jump }
{
    matches!(jump, Jump::Jb | Jump::Jz | Jump::Js | Jump::Jp)
}

/// The exit by a conditional jump, of which these are the ends of the way straight on and of the jump's. None only where the terms had
/// no room for a node more.
pub fn two_exit(
    terms: &mut Terms,
    run: &Run,
    jump: Jump,
    straight: Last,
    jumped: Last,
) -> Option<Exit>
    requires { IsReady terms.old run.now }
    ensures { (here there : WayTree) → LastIs (as86 (machine_of terms.old run.now)) here straight → LastIs (as86 (machine_of terms.old run.now)) there jumped → FindsExit terms.old terms.new 6 (Two (flag_of_jump (trees_of_held terms.old run.now.held) jump) (jumps_at jump) there here) result }
{
    let there = way_of(terms, run, jumped)?;
    let here = way_of(terms, run, straight)?;
    Some(Exit::Two(flag_of_jump(&run.held, jump), jumps_at(jump), there, here))
}
