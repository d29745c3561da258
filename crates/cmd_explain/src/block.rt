// What is said of a block that does not match.

ghost use Rattle.std.specs.Prelude.{◌≡◌, ◌++◌, ◌<◌, ◌≤◌, ◌-◌, ℕ, List, true, Some, drop, length, IfOk, OnOk};
ghost use Rattle.std.specs.String.{string_bytes};
ghost use Rattle.asm80_types.specs.Program.{is_start, line_at};
ghost use Rattle.asm86_line_types.specs.declared.line.Label.TheVariants.{At};
ghost use Rattle.asm86_line_types.specs.declared.line.Stmt86.{Stmt86};
ghost use Rattle.asm86_line_types.specs.Image.{statements};
ghost use Rattle.flow.specs.Blocks.{IsStraight, place_after};
ghost use Rattle.sym_block_def.specs.Block80.{MayRun};
ghost use Rattle.sym_block_def.specs.Walk86.{after_label};
ghost use Rattle.sym_block_def.specs.BlockMatch.{Keeps};
ghost use Rattle.block_explain.specs.Explained.{IsSaid};
ghost use Rattle.cmd_explain.specs.Lines.{block_line, source_lines};
ghost use Rattle.cmd_explain.specs.Explained.{ReasonTold, LabelTold, BlockTold, ends_walk};
ghost use Rattle.cmd_explain.specs.Telling.{Tells, HasFirstLines};

use crate::lines::tell_end;
use asm80_types::Program80;
use asm86_line_types::{Label, Line86};
use block_explain::Said;
use cmd_common::{reason_name, word_digits};
use flow::{Graph, place_after};
use std::alloc::{AllocError, Global};
use sym_block_def::Reason;
use sym_run::{Index86, walk_end};

/// What is explained: a program with its graph, and the lines of a text with their index.
#[derive(Clone, Copy)]
pub struct Sides<'a> {
    pub program: &'a Program80,
    pub graph: &'a Graph,
    pub lines: &'a [Line86],
    pub text: &'a Index86,
}

/// More of an explanation: what is said of a block of so many instructions that does not match.
pub fn tell_block(
    alloc: Global,
    told: &mut Vec<u8>,
    sides: &Sides<'_>,
    leader: u16,
    count: u32,
    said: &Said,
) -> Result<(), AllocError>
    requires block { MayRun sides.now.program.now leader count }
    requires starts { is_start sides.now.program.now leader ≡ true }
    requires ends { is_start sides.now.program.now (place_after sides.now.program.now leader (count - 1)) ≡ true }
    requires text { sides.now.text.now ≡ statements sides.now.lines.now }
    ensures { OnOk result ((k : Keeps) → IsSaid sides.now.program.now sides.now.text.now k leader count (Some said.now)
        → Tells (BlockTold sides.now.program.now sides.now.lines.now k leader count said.now.reason) told.old.items told.new.items) }
{
    let last = place_after(sides.program, leader, count - 1);
    let head = head_of(alloc, sides.program, leader, last, said.reason)?;
    told.extend_from_slice(head.as_bytes())?;
    match sides.text.behind(Label::At(leader)) {
        Some(place) => tell_label(alloc, told, sides, place, leader, count, said),
        None => Ok(()),
    }
}

// The lines that name a block with its reason, and those of its first and its last instruction.
fn head_of(
    alloc: Global,
    program: &Program80,
    first: u16,
    last: u16,
    reason: Reason,
) -> Result<String, AllocError>
    requires first { is_start program.now first ≡ true }
    requires last { is_start program.now last ≡ true }
    ensures { IfOk result (λ head. HasFirstLines program.now first last reason (string_bytes head)) }
{
    let Some(from) = program.line_at(first) else {
        unreachable!()
    };
    let Some(to) = program.line_at(last) else {
        unreachable!()
    };
    head_lines(alloc, first, reason, from, to)
}

fn head_lines(
    alloc: Global,
    first: u16,
    reason: Reason,
    from: u32,
    to: u32,
) -> Result<String, AllocError>
    ensures { IfOk result (λ head. string_bytes head ≡ block_line first reason ++ source_lines from to) }
{
    let digits = word_digits(alloc, first)?;
    let name = reason_name(reason);
    format!(in alloc; "block {digits}, {name}\nsource lines {from} to {to}\n")
}

// The line of the block's label, which stands before a place, and the reason.
fn tell_label(
    alloc: Global,
    told: &mut Vec<u8>,
    sides: &Sides<'_>,
    place: usize,
    leader: u16,
    count: u32,
    said: &Said,
) -> Result<(), AllocError>
    requires block { MayRun sides.now.program.now leader count }
    requires text { sides.now.text.now ≡ statements sides.now.lines.now }
    requires label { after_label (statements sides.now.lines.now) (At leader) ≡ Some (drop place (statements sides.now.lines.now)) }
    requires within { place ≤ length sides.now.lines.now }
    requires after { 0 < place }
    ensures { OnOk result ((k : Keeps) → IsSaid sides.now.program.now sides.now.text.now k leader count (Some said.now)
        → Tells (LabelTold sides.now.program.now sides.now.lines.now k leader count said.now.reason (drop place (statements sides.now.lines.now))) told.old.items told.new.items) }
{
    let line = format!(in alloc; "text line {}\n", sides.lines[place - 1].line)?;
    told.extend_from_slice(line.as_bytes())?;
    tell_reason(alloc, told, sides, leader, count, said)
}

// Whether the walk through the text ends before it comes to an outcome.
fn ends_walk(reason: Reason) -> bool
    ensures { result ≡ ends_walk reason }
{
    matches!(reason, Reason::Length | Reason::Form)
}

// The statement at which the walk ended, or what of both sides does not agree.
fn tell_reason(
    alloc: Global,
    told: &mut Vec<u8>,
    sides: &Sides<'_>,
    leader: u16,
    count: u32,
    said: &Said,
) -> Result<(), AllocError>
    requires block { MayRun sides.now.program.now leader count }
    requires text { sides.now.text.now ≡ statements sides.now.lines.now }
    ensures { OnOk result ((k : Keeps) (rest : List Stmt86) → after_label (statements sides.now.lines.now) (At leader) ≡ Some rest
        → IsSaid sides.now.program.now sides.now.text.now k leader count (Some said.now)
        → Tells (ReasonTold sides.now.program.now sides.now.lines.now k leader count (ends_walk said.now.reason) said.now.reason) told.old.items told.new.items) }
{
    if !ends_walk(said.reason) {
        return told.extend_from_slice(said.lines.as_bytes());
    }
    match walk_end(sides.program, sides.text, leader, count) {
        Some(place) => tell_end(alloc, told, &sides.lines[place..]),
        None => Ok(()),
    }
}
