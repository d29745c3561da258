// The statements of an instruction, in a text that leaves out what it may.
ghost use Rattle.std.specs.Prelude.{◌≡◌, ◌+◌, ◌^◌, ◌<◌, ◌≤◌, ◌++◌, length, IsTrue, OnOk};
ghost use Rattle.flow.specs.Cut.{EndsInMemory};
ghost use Rattle.flow.specs.Solving.{Needs, AreAllNeeds};
ghost use Rattle.templates.specs.Style.{jump_if, without_first_if, without_last_if, written_in_style};
ghost use Rattle.templates.specs.Jumps.{style_by};

use crate::places::Jumps;
use crate::rules::{loses_nothing, saves};
use crate::{Text, label_of, template};
use asm80_types::Placed;
use asm86_line_types::{Jump, Stmt86};
use cells::Cond;
use flow::{Graph, is_word_sum};
use i80::{Goal, Instr80};
use i86::Instr86;
use std::alloc::AllocError;

/// What stands before and behind an instruction in its block: whether its first statement, a LAHF, is left out, and its last, a SAHF,
/// and whether C is known to hold a number other than 0.
#[derive(Clone, Copy)]
pub struct Context {
    pub first: bool,
    pub last: bool,
    pub known: bool,
}

// The jump of a condition.
fn jump_if(cond: Cond) -> Jump
    ensures { result ≡ jump_if cond }
{
    match cond {
        Cond::Nz => Jump::Jnz,
        Cond::Z => Jump::Jz,
        Cond::Nc => Jump::Jnb,
        Cond::C => Jump::Jb,
        Cond::Po => Jump::Jnp,
        Cond::Pe => Jump::Jp,
        Cond::P => Jump::Jns,
        Cond::M => Jump::Js,
    }
}

fn without_first_if(first: bool, statements: &[Stmt86]) -> &[Stmt86]
    ensures { result.now ≡ without_first_if first statements.now }
{
    match statements.split_first() {
        Some((_, rest)) if first => rest,
        _ => statements,
    }
}

fn without_last_if(last: bool, statements: &[Stmt86]) -> &[Stmt86]
    ensures { result.now ≡ without_last_if last statements.now }
{
    match statements.split_last() {
        Some((_, front)) if last => front,
        _ => statements,
    }
}

/// The statements of an instruction: 12 at most.
pub fn put_written(
    text: &mut Text,
    graph: &Graph,
    jumps: &Jumps,
    context: Context,
    placed: &Placed,
) -> Result<(), AllocError>
    requires room { length text.old < 2 ^ 20 }
    requires solved { IsTrue graph.now.is_solved }
    requires whole { EndsInMemory placed.now }
    ensures value { (n : Needs) → AreAllNeeds graph.now.program n → OnOk result (text.new ≡ text.old ++ written_in_style (style_by n jumps.now) context.first context.last context.known placed.now) }
    ensures most { OnOk result (length text.new ≤ length text.old + 12) }
{
    // the template of another instruction is the same with a save, so none is looked for
    let save = is_word_sum(placed.instr) && saves(graph, placed);
    let whole = template(placed.instr, placed.at, save);
    match placed.instr {
        Instr80::Jif(cond, goal) => {
            if jumps.shorten(placed) {
                text.push(Stmt86::Jcc(jump_if(cond), label_of(goal)))
            } else {
                text.append(whole.as_slice())
            }
        }
        Instr80::Call(Goal::Bdos) => {
            if context.known && loses_nothing(graph, placed) {
                text.push(Stmt86::Run(Instr86::Int224))
            } else {
                text.append(whole.as_slice())
            }
        }
        _ => text.append(without_first_if(
            context.first,
            without_last_if(context.last, whole.as_slice()),
        )),
    }
}
