// The statement at which a walk ends. It is found after a walk was refused, by one more way through the text, so that a walk keeps no place.

ghost use Rattle.std.specs.Prelude.{◌≡◌, ℕ, ◌≤◌, length, drop};
ghost use Rattle.sym_block_def.specs.Block80.{MayRun};
ghost use Rattle.sym_run.specs.Around.{surroundings_of};
ghost use Rattle.sym_run.specs.Places.{IsPlace};
ghost use Rattle.sym_run.specs.Stop.{pass, stop, goes_to, is_last, next_after, ends_by, stop_from, way_stop, is_way_end, two_ways_stop, stop_of_walk, walk_end, EndsSayWhy, IsAt, StopsAt};

use crate::around::{Around, is_passed, way_to};
use crate::block::addresses;
use crate::index::Index86;
use asm80_types::Program80;
use asm86_line_types::{Label, Stmt86};
use i86::Instr86;

/// Where a walk stops: the place of a statement, before which so many instructions were left to it.
#[derive(Clone, Copy)]
pub struct Stop {
    pub room: u32,
    pub at: usize,
}

// The place after the labels that are passed.
fn pass(around: &Around<'_>, from: usize) -> usize
    requires { from ≤ length around.now.text.now }
    ensures { IsAt around.now.text.now result (pass (surroundings_of around.now) (drop from around.now.text.now)) }
{
    let statements = around.text.statements();
    let mut at = from;
    while at < statements.len() {
        match statements[at] {
            Stmt86::Mark(label) if is_passed(around, label) => at += 1,
            _ => return at,
        }
    }
    at
}

// The place where a jump to a label goes on; none where it ends the way.
fn goes_to(around: &Around<'_>, label: Label) -> Option<usize>
    ensures { IsPlace around.now.text.now result (goes_to (surroundings_of around.now) label) }
{
    match way_to(label) {
        Some(_) => None,
        None => around.text.behind(label),
    }
}

// Whether an instruction ends a walk, or a walk is refused at it.
fn is_last(instr: Instr86) -> bool
    ensures { result ≡ is_last instr }
{
    matches!(
        instr,
        Instr86::Ret
            | Instr86::JmpBx
            | Instr86::Int224
            | Instr86::InAl(_)
            | Instr86::OutAl(_)
            | Instr86::MovSsAx
            | Instr86::Jcc(..)
            | Instr86::JmpNear(_)
            | Instr86::JmpShort(_)
            | Instr86::CallNear(_)
    )
}

// The place where a walk goes on after a statement, whose next one is here: after a conditional jump, or before one.
fn next_after(around: &Around<'_>, jumped: bool, stmt: Stmt86, next: usize) -> Option<usize>
    requires { next ≤ length around.now.text.now }
    ensures { IsPlace around.now.text.now result (next_after jumped (surroundings_of around.now) stmt (drop next around.now.text.now)) }
{
    match stmt {
        Stmt86::Jmp(label) | Stmt86::Jmps(label) => goes_to(around, label),
        Stmt86::Run(instr) if !jumped && !is_last(instr) => Some(next),
        Stmt86::MovOffset(..) if !jumped => Some(next),
        _ => None,
    }
}

// Where a walk stops that goes on from a place, or the way after a conditional jump.
fn stop_from(around: &Around<'_>, jumped: bool, room: u32, from: usize) -> Stop
    requires { from ≤ length around.now.text.now }
    ensures { StopsAt around.now.text.now result (stop_from jumped (surroundings_of around.now) room (pass (surroundings_of around.now) (drop from around.now.text.now))) }
{
    let statements = around.text.statements();
    let mut left = room;
    let mut at = pass(around, from);
    while left > 0 && at < statements.len() {
        match next_after(around, jumped, statements[at], at + 1) {
            Some(next) => {
                at = pass(around, next);
                left -= 1;
            }
            None => return Stop { room: left, at },
        }
    }
    Stop { room: left, at }
}

// Whether a way after a conditional jump ends well at a statement.
fn ends_by(stmt: Stmt86) -> bool
    ensures { result ≡ ends_by stmt }
{
    match stmt {
        Stmt86::Jmp(label) | Stmt86::Jmps(label) => way_to(label).is_some(),
        Stmt86::Call(Label::At(_)) | Stmt86::Call(Label::Sys) => true,
        Stmt86::Run(Instr86::Ret) | Stmt86::Run(Instr86::JmpBx) => true,
        _ => false,
    }
}

// Whether a way after a conditional jump ends well where it stops.
fn is_way_end(around: &Around<'_>, stop: Stop) -> bool
    requires { stop.at ≤ length around.now.text.now }
    ensures { result ≡ is_way_end stop.room (drop stop.at around.now.text.now) }
{
    match around.text.statements()[stop.at..].first() {
        Some(stmt) => matches!(stmt, Stmt86::Mark(_)) || stop.room > 0 && ends_by(*stmt),
        None => false,
    }
}

// Of the two ways after a conditional jump the place where the one straight on, from the next place, stops, unless it ends well; else that
// of the other one, by its label.
fn two_ways_stop(around: &Around<'_>, room: u32, label: Label, here: usize, next: usize) -> usize
    requires here { here ≤ length around.now.text.now }
    requires next { next ≤ length around.now.text.now }
    ensures { (left : ℕ) → IsAt around.now.text.now result ((two_ways_stop (surroundings_of around.now) room label (way_stop (surroundings_of around.now) room (drop next around.now.text.now)) (stop left (drop here around.now.text.now))).at) }
{
    let straight = stop_from(around, true, room, next);
    if !is_way_end(around, straight) {
        return straight.at;
    }
    match goes_to(around, label) {
        Some(jumped) => stop_from(around, true, room, jumped).at,
        None => here,
    }
}

// Where a walk from a place on ends.
fn stop_of_walk(around: &Around<'_>, room: u32, from: usize) -> usize
    requires { from ≤ length around.now.text.now }
    ensures { IsAt around.now.text.now result ((stop_of_walk (surroundings_of around.now) room (drop from around.now.text.now)).at) }
{
    let stop = stop_from(around, false, room, from);
    let Some(stmt) = around.text.statements()[stop.at..].first() else {
        return stop.at;
    };
    if stop.room == 0 {
        return stop.at;
    }
    match stmt {
        Stmt86::Jcc(_, label) => two_ways_stop(around, stop.room - 1, *label, stop.at, stop.at + 1),
        _ => stop.at,
    }
}

/// The place of the statement at which the walk ends that the text makes at the label of a block of so many instructions: where it is
/// refused, the one that it is refused at. None where the text has no such label.
pub fn walk_end(program: &Program80, text: &Index86, first: u16, count: u32) -> Option<usize>
    requires { MayRun program.now first count }
    ensures { IsPlace text.now result (walk_end program.now text.now first count) }
{
    let (addresses, after) = addresses(program, first, count);
    let around = Around {
        text,
        later: &addresses[1..count as usize],
        after,
        goes_on: program.instr_at(after).is_some(),
    };
    let from = text.behind(Label::At(first))?;
    Some(stop_of_walk(&around, 10 * count, from))
}

/// A law: a walk that is refused is refused for what stands where it ends: for Length at an instruction for which none is left, or at a
/// label where it has had no instruction; for Form at anything else; and it is Missing where the text has no label for it.
pub fn ends_say_why()
    ensures { EndsSayWhy }
{}
