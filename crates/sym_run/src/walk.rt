// The walk through a text.

ghost use Rattle.std.specs.Prelude.{◌≡◌, ◌+◌, ◌*◌, ◌≤◌, length, MatchOption, OnErr};
ghost use Rattle.std.specs.Vec.{vec_capacity};
ghost use Rattle.asm86_line_types.specs.declared.line.Label.TheVariants.{At};
ghost use Rattle.sym_terms.specs.Trees.{tree_in};
ghost use Rattle.sym_block_def.specs.Block80.{MayRun};
ghost use Rattle.sym_block_def.specs.Outcome.{Way as WayTree};
ghost use Rattle.sym_block_def.specs.Walk86.{after_label, is_call, met, one_way, run_by, two_ways, walk_by, walk_through, walk_behind, walk86};
ghost use Rattle.sym_micro.specs.Machine.{as86};
ghost use Rattle.sym_micro.specs.Stands.{machine_of, IsReady};
ghost use Rattle.sym_run.specs.Around.{surroundings_of};
ghost use Rattle.sym_run.specs.Ends.{LastIs, WalksTo, Advances};

use crate::around::{Around, Met, behind, meets};
use crate::block::addresses;
use crate::ends::{End, Next, by_exit, call, direct_call, end_at, jump, port};
use crate::index::Index86;
use crate::lasts::{Last, both_from, two_exit, way_of};
use asm80_types::Program80;
use asm86_line_types::{Jump, Label, Stmt86};
use cells::{Keep, Place};
use i86::Instr86;
use sym_block_def::Reason;
use sym_micro::{Exit, Run, Way, begin};
use sym_step::{offset, step86};
use sym_terms::{Head, Terms};

// Whether INT 224 is a call of the system that comes back: the function in CL is a number other than 0.
fn is_call(terms: &Terms, run: &Run) -> bool
    requires { IsReady terms.now run.now }
    ensures { result ≡ is_call (tree_in terms.now run.now.held.c) }
{
    match terms.head(run.held.c) {
        Head::Num(n) => n != 0,
        _ => false,
    }
}

// The first conditional jump ends the walk by two ways, to which so many instructions are left.
fn two_ways(
    around: &Around<'_>,
    terms: &mut Terms,
    run: &Run,
    room: u32,
    rest: &[Stmt86],
    jump: Jump,
    label: Label,
) -> Option<Result<End, Reason>>
    requires { IsReady terms.old run.now }
    ensures walks { WalksTo terms.old terms.new run.now 6 (two_ways (surroundings_of around.now) room rest.now (as86 (machine_of terms.old run.now)) jump label) result }
    ensures refused { MatchOption result (Unit {0}) (λ end. OnErr end (terms.new ≡ terms.old)) }
{
    match both_from(around, room, rest, label) {
        Ok((straight, jumped)) => {
            let exit = two_exit(terms, run, jump, straight, jumped)?;
            Some(Ok(by_exit(exit)))
        }
        Err(reason) => Some(Err(reason)),
    }
}

// An instruction that ends the walk by one way.
fn one_way<'a>(terms: &mut Terms, run: &Run, last: Last) -> Option<Next<'a>>
    requires { IsReady terms.old run.now }
    ensures { (tree : WayTree) → LastIs (as86 (machine_of terms.old run.now)) tree last → Advances terms.old terms.new run.now run.now (λ on. one_way (as86 (machine_of terms.old run.now)) tree) result }
{
    let way = way_of(terms, run, last)?;
    Some(Next::Ends(Ok(by_exit(Exit::One(way)))))
}

// One instruction that is no jump and no call by a label.
fn run_instr<'a>(
    around: &Around<'_>,
    terms: &mut Terms,
    run: &mut Run,
    instr: Instr86,
    rest: &'a [Stmt86],
) -> Option<Next<'a>>
    requires ready { IsReady terms.old run.old }
    requires room { length run.old.actions.items ≤ 510 }
    ensures { Advances terms.old terms.new run.old run.new (λ on. run_by (surroundings_of around.now) on rest.now (as86 (machine_of terms.old run.old)) instr) result }
{
    match instr {
        Instr86::Ret => one_way(terms, run, Last::Return),
        Instr86::JmpBx => one_way(terms, run, Last::ByBx),
        Instr86::Int224 => {
            let is_call = is_call(terms, run);
            Some(Next::Ends(direct_call(around, rest, is_call)))
        }
        Instr86::InAl(n) => {
            let way = Way::In(n, Place::At(around.after));
            Some(Next::Ends(port(around, rest, way)))
        }
        Instr86::OutAl(n) => {
            let way = Way::Out(n, Place::At(around.after));
            Some(Next::Ends(port(around, rest, way)))
        }
        Instr86::MovSsAx
        | Instr86::Jcc(..)
        | Instr86::JmpNear(_)
        | Instr86::JmpShort(_)
        | Instr86::CallNear(_) => Some(Next::Ends(Err(Reason::Form))),
        _ => {
            step86(terms, run, instr)?;
            Some(Next::GoesOn(rest))
        }
    }
}

// One instruction, behind which so many are left.
fn advance<'a>(
    around: &Around<'a>,
    terms: &mut Terms,
    run: &mut Run,
    room: u32,
    stmt: Stmt86,
    rest: &'a [Stmt86],
) -> Option<Next<'a>>
    requires ready { IsReady terms.old run.old }
    requires room { length run.old.actions.items ≤ 510 }
    ensures { Advances terms.old terms.new run.old run.new (λ on. walk_by (surroundings_of around.now) room on rest.now (as86 (machine_of terms.old run.old)) stmt) result }
{
    match stmt {
        Stmt86::Run(instr) => run_instr(around, terms, run, instr, rest),
        Stmt86::MovOffset(to, label) => {
            offset(terms, run, to, label)?;
            Some(Next::GoesOn(rest))
        }
        Stmt86::Jmp(label) | Stmt86::Jmps(label) => Some(jump(around, label)),
        Stmt86::Jcc(jump, label) => {
            let end = two_ways(around, terms, run, room, rest, jump, label)?;
            Some(Next::Ends(end))
        }
        Stmt86::Call(label) => Some(Next::Ends(call(around, rest, label))),
        _ => Some(Next::Ends(Err(Reason::Form))),
    }
}

// The walk from a place on, with so many instructions left to it.
fn walk_from<'a>(
    around: &Around<'a>,
    terms: &mut Terms,
    run: &mut Run,
    room: u32,
    from: &'a [Stmt86],
) -> Option<Result<End, Reason>>
    requires ready { IsReady terms.old run.old }
    requires room { length run.old.actions.items + 2 * room ≤ 512 }
    ensures { WalksTo terms.old terms.new run.new (24 * room) (walk_through (surroundings_of around.now) room (met (surroundings_of around.now) from.now) (as86 (machine_of terms.old run.old))) result }
{
    match meets(around, from) {
        Met::EndsAt(label) => Some(end_at(label)),
        Met::Nothing => Some(Err(Reason::Form)),
        Met::Instruction(stmt, rest) => {
            if room == 0 {
                return Some(Err(Reason::Length));
            }
            match advance(around, terms, run, room - 1, stmt, rest)? {
                Next::Ends(end) => Some(end),
                Next::GoesOn(rest) => walk_from(around, terms, run, room - 1, rest),
            }
        }
    }
}

// The walk from a block's label on, with so many instructions left to it.
fn walk_label(
    around: &Around<'_>,
    terms: &mut Terms,
    run: &mut Run,
    room: u32,
    first: u16,
) -> Option<Result<End, Reason>>
    requires ready { IsReady terms.old run.old }
    requires room { length run.old.actions.items + 2 * room ≤ 512 }
    ensures { WalksTo terms.old terms.new run.new (24 * room) (walk_behind (surroundings_of around.now) room (as86 (machine_of terms.old run.old)) (after_label around.now.text.now (At first))) result }
{
    let Some(from) = behind(around, Label::At(first)) else {
        return Some(Err(Reason::Missing));
    };
    match meets(around, from) {
        Met::EndsAt(_) => Some(Err(Reason::Length)),
        _ => walk_from(around, terms, run, room, from),
    }
}

/// What the text does at the label of a block of so many instructions, whose parts these are kept: the run is that of its outcome, and
/// its end is the answer; or the reason why it has none. None only where the terms had no room for a node more.
pub fn run_text(
    terms: &mut Terms,
    run: &mut Run,
    program: &Program80,
    text: &Index86,
    keep: Keep,
    first: u16,
    count: u32,
) -> Option<Result<End, Reason>>
    requires capacity { vec_capacity run.old.actions ≡ 512 }
    requires block { MayRun program.now first count }
    ensures { WalksTo terms.old terms.new run.new (240 * count + 32) (walk86 program.now text.now keep first count) result }
{
    let (addresses, after) = addresses(program, first, count);
    let around = Around {
        text,
        later: &addresses[1..count as usize],
        after,
        goes_on: program.instr_at(after).is_some(),
    };
    begin(terms, run, keep)?;
    walk_label(&around, terms, run, 10 * count, first)
}
