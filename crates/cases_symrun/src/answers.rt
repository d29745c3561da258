// What a case is answered.
ghost use Rattle.block_check.specs.Comparing.{AreReady};

use crate::agreeing::{number_held, number_stored, outcomes_agree};
use crate::codes::{bare_text, code_text};
use crate::explaining::{explained, reason_of};
use crate::graphs::{block_text, blocks_text, need_text, return_text, saves_text};
use crate::running::run_both;
use crate::shown::{push_exit, reason_text};
use crate::sources::{is_top, plain_index, program_below, program_of, text_index};
use crate::texts::{lean_lines, whole_text};
use anyhow::bail;
use asm80_types::Program80;
use block_check::{Verdict, check_all_kept};
use cells::{Keep, Part};
use std::alloc::{AllocError, Global};
use sym_run::{Index86, Work};

/// The answer of a case, as the standard input says.
pub fn answer(alloc: Global, case: &str) -> anyhow::Result<String> {
    let (kind, rest) = case.split_once(' ').unwrap_or((case, ""));
    let (word, counted) = rest.split_once(' ').unwrap_or(("", rest));
    let count = word.parse::<u16>().unwrap_or(0);
    let address = u16::from_str_radix(word, 16).unwrap_or(0);
    match kind {
        "alone" => alone(alloc, rest),
        "code" => code_text(alloc, rest),
        "bare" => bare_text(alloc, rest),
        "plain" => plain(alloc, u32::from(count), counted),
        "walk" => walk(alloc, u32::from(count), counted, Shown::Exit),
        "why" => why(alloc, word, counted),
        "blocks" => blocks(alloc, rest),
        "return" => at_return(alloc, rest),
        "lean" => lean(alloc, usize::from(count), counted),
        "text" => text(alloc, address, counted),
        _ => at_address(alloc, kind, address, counted),
    }
}

fn blocks(alloc: Global, source: &str) -> anyhow::Result<String> {
    let program = program_of(alloc, source)?;
    Ok(blocks_text(alloc, &program)?)
}

fn at_return(alloc: Global, source: &str) -> anyhow::Result<String> {
    let program = program_of(alloc, source)?;
    Ok(return_text(alloc, &program)?)
}

fn lean(alloc: Global, count: usize, source: &str) -> anyhow::Result<String> {
    let program = program_of(alloc, source)?;
    Ok(lean_lines(alloc, &program, count)?)
}

fn text(alloc: Global, top: u16, source: &str) -> anyhow::Result<String> {
    if !is_top(top) {
        bail!("no top: {top}");
    }
    let program = program_below(alloc, source, top)?;
    Ok(whole_text(alloc, &program)?)
}

// What is asked of an address.
fn at_address(alloc: Global, kind: &str, at: u16, source: &str) -> anyhow::Result<String> {
    let program = program_of(alloc, source)?;
    Ok(address_text(alloc, &program, kind, at)?)
}

fn address_text(
    alloc: Global,
    program: &Program80,
    kind: &str,
    at: u16,
) -> Result<String, AllocError> {
    match kind {
        "block" => block_text(alloc, program, at),
        "need" => need_text(alloc, program, at),
        "saves" => saves_text(alloc, program, at),
        _ => String::from_str(alloc, "no such case"),
    }
}

// What is shown of the outcomes of the block at 0100H.
#[derive(Clone, Copy)]
enum Shown<'a> {
    /// Why the text does not match, where this is the reason.
    Reason(&'a str),
    /// The exit of the text's walk.
    Exit,
    /// Both exits, what C and E hold as numbers, and what its stores of numbers are.
    Plain,
}

// A case of a number of instructions, a source and a text.
fn why(alloc: Global, reason: &str, case: &str) -> anyhow::Result<String> {
    let (count, case) = case.split_once(' ').unwrap_or((case, ""));
    let count = count.parse::<u32>().unwrap_or(0);
    walk(alloc, count, case, Shown::Reason(reason))
}

// A case of a source and a text.
fn walk(alloc: Global, count: u32, case: &str, shown: Shown<'_>) -> anyhow::Result<String> {
    let (source, text) = case.split_once(" | ").unwrap_or((case, ""));
    let program = program_of(alloc, source)?;
    walk_of(alloc, &program, count, text, shown)
}

fn walk_of(
    alloc: Global,
    program: &Program80,
    count: u32,
    text: &str,
    shown: Shown<'_>,
) -> anyhow::Result<String> {
    let index = text_index(alloc, text)?;
    outcomes_text(alloc, program, &index, count, shown)
}

// With the program's own plain text.
fn plain(alloc: Global, count: u32, source: &str) -> anyhow::Result<String> {
    let program = program_of(alloc, source)?;
    plain_of(alloc, &program, count)
}

fn plain_of(alloc: Global, program: &Program80, count: u32) -> anyhow::Result<String> {
    let index = plain_index(alloc, program)?;
    outcomes_text(alloc, program, &index, count, Shown::Plain)
}

fn outcomes_text(
    alloc: Global,
    program: &Program80,
    index: &Index86,
    count: u32,
    shown: Shown<'_>,
) -> anyhow::Result<String> {
    let mut work = Work::new(alloc)?;
    match run_both(&mut work, program, index, 0x100, count, Keep::all()) {
        Some(Ok(())) => Ok(shown_text(alloc, &work, shown)?),
        Some(Err(reason)) => Ok(String::from_str(alloc, reason_text(reason))?),
        None => bail!("no block, or no room"),
    }
}

fn shown_text(alloc: Global, work: &Work, shown: Shown<'_>) -> Result<String, AllocError>
    requires { AreReady work.now }
{
    match shown {
        Shown::Reason(reason) => explained(alloc, work, reason_of(reason)),
        Shown::Exit => walk_text(alloc, work),
        Shown::Plain => plain_text(alloc, work),
    }
}

// The second exit, whether its call is a direct one, and whether the outcomes agree.
fn walk_text(alloc: Global, work: &Work) -> Result<String, AllocError>
    requires { AreReady work.now }
{
    let mut text = String::new(alloc);
    push_exit(&mut text, work.second())?;
    text.push_str(direct_text(work))?;
    text.push_str(agrees_text(work))?;
    Ok(text)
}

fn direct_text(work: &Work) -> &'static str {
    if work.second().direct() {
        " directly"
    } else {
        ""
    }
}

fn agrees_text(work: &Work) -> &'static str
    requires { AreReady work.now }
{
    if outcomes_agree(work) { ", agrees" } else { "" }
}

fn plain_text(alloc: Global, work: &Work) -> Result<String, AllocError>
    requires { AreReady work.now }
{
    let mut text = String::new(alloc);
    push_plain(&mut text, work)?;
    Ok(text)
}

fn push_plain(text: &mut String, work: &Work) -> Result<(), AllocError>
    requires { AreReady work.now }
{
    push_exit(text, work.first())?;
    text.push_str(", ")?;
    push_exit(text, work.second())?;
    push_held(text, number_held(work, Part::C))?;
    push_held(text, number_held(work, Part::E))?;
    push_stores(text, work)?;
    text.push_str(agrees_text(work))
}

fn push_held(text: &mut String, number: Option<u16>) -> Result<(), AllocError> {
    match number {
        Some(n) => write!(text, ", {n:02x}"),
        None => Ok(()),
    }
}

fn push_stores(text: &mut String, work: &Work) -> Result<(), AllocError>
    requires { AreReady work.now }
{
    for k in 0..work.first().actions().len() {
        push_store(text, number_stored(work, k))?;
    }
    Ok(())
}

fn push_store(text: &mut String, numbers: Option<(u16, u16)>) -> Result<(), AllocError> {
    match numbers {
        Some((a, n)) => write!(text, ", {a:04x} {n:02x}"),
        None => Ok(()),
    }
}

// How many instructions, each alone, agree with their plain templates.
fn alone(alloc: Global, source: &str) -> anyhow::Result<String> {
    let program = program_of(alloc, source)?;
    alone_of(alloc, &program)
}

fn alone_of(alloc: Global, program: &Program80) -> anyhow::Result<String> {
    let index = plain_index(alloc, program)?;
    alone_by(alloc, program, &index)
}

fn alone_by(alloc: Global, program: &Program80, index: &Index86) -> anyhow::Result<String> {
    let mut work = Work::new(alloc)?;
    count_text(alloc, agreeing(&mut work, program, index))
}

fn count_text(alloc: Global, count: Option<u32>) -> anyhow::Result<String> {
    match count {
        Some(count) => Ok(format!(in alloc; "{count} agree")?),
        None => bail!("no outcomes"),
    }
}

// None where an instruction has no outcomes.
fn agreeing(work: &mut Work, program: &Program80, index: &Index86) -> Option<u32> {
    let mut count = 0_u32;
    for placed in program.instrs() {
        if agrees_at(work, program, index, placed.at)? {
            count = u32::saturating_add(count, 1);
        }
    }
    Some(count)
}

fn agrees_at(work: &mut Work, program: &Program80, index: &Index86, at: u16) -> Option<bool> {
    match run_both(work, program, index, at, 1, Keep::all()) {
        Some(Ok(())) => Some(outcomes_agree(work) && is_shown_alone(work, program, index, at)),
        _ => None,
    }
}

fn is_shown_alone(work: &mut Work, program: &Program80, index: &Index86, at: u16) -> bool {
    match program.instr_at(at) {
        Some(_) => check_all_kept(work, program, index, at) == Verdict::Shown,
        None => false,
    }
}
