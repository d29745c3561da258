// What machines are asked to do, word by word.
use crate::events::push_event;
use crate::machines::{Machine, Step};
use crate::talks::run;
use crate::words::{push_number, push_word};
use dialogue::{Block, Blocks, Bytes, Reply};
use std::alloc::{AllocError, Global};

/// What a machine answers to each word: `step`, `place`, `asked`, `reply=HEX`, `write`, which is a reply that writes a byte,
/// `changes`, or `run=HEX`, which runs on and answers each call so. Where something is open the choice is taken.
pub fn script<M: Machine>(
    alloc: Global,
    machine: &mut M,
    choice: u128,
    words: &str,
) -> Result<String, AllocError>
    requires { M.runs machine.old }
{
    let mut text = String::new(alloc);
    for word in words.split(' ') {
        if !text.is_empty() {
            text.push(';')?;
        }
        push_answer(alloc, &mut text, machine, choice, word)?;
    }
    Ok(text)
}

fn push_answer<M: Machine>(
    alloc: Global,
    text: &mut String,
    machine: &mut M,
    choice: u128,
    word: &str,
) -> Result<(), AllocError>
    requires { M.runs machine.old }
    ensures { M.runs machine.new }
{
    let (name, value) = word.split_once('=').unwrap_or((word, "0"));
    let value = u16::from_str_radix(value, 16).unwrap_or(0);
    match name {
        "step" => push_step(text, machine.step(choice)),
        "place" => push_place(text, machine.place()),
        "asked" => push_asked(alloc, text, machine),
        "reply" => push_taken(text, machine.reply(&reply(alloc, value), choice)),
        "write" => push_written(alloc, text, machine, choice),
        "changes" => push_changes(alloc, text, machine),
        "run" => run(alloc, text, machine, choice, value),
        _ => text.push_str(" no such word"),
    }
}

fn push_changes<M: Machine>(
    alloc: Global,
    text: &mut String,
    machine: &mut M,
) -> Result<(), AllocError>
    requires { M.runs machine.old }
    ensures { M.runs machine.new }
{
    let length = text.len();
    machine.push_changes(alloc, text)?;
    if text.len() > length {
        return Ok(());
    }
    text.push_str(" nothing")
}

fn push_asked<M: Machine>(alloc: Global, text: &mut String, machine: &M) -> Result<(), AllocError> {
    let event = machine.asked(alloc)?;
    push_event(text, event.as_ref())
}

fn push_written<M: Machine>(
    alloc: Global,
    text: &mut String,
    machine: &mut M,
    choice: u128,
) -> Result<(), AllocError>
    requires { M.runs machine.old }
    ensures { M.runs machine.new }
{
    let reply = writing(alloc)?;
    push_taken(text, machine.reply(&reply, choice))
}

/// Adds what a step answers.
pub fn push_step(text: &mut String, step: Step) -> Result<(), AllocError> {
    match step {
        Step::Ran => text.push_str(" ran"),
        Step::Asked => text.push_str(" asks"),
        Step::Ended => text.push_str(" ended"),
        Step::Stopped(why) => text.push_str(why),
        Step::StoppedAt(why, number) => push_number(text, why, u32::from(number)),
    }
}

fn push_place(text: &mut String, place: Option<u16>) -> Result<(), AllocError> {
    match place {
        Some(at) => push_word(text, " at ", at),
        None => text.push_str(" at the exit"),
    }
}

fn push_taken(text: &mut String, is_taken: bool) -> Result<(), AllocError> {
    text.push_str(if is_taken { " taken" } else { " refused" })
}

/// A reply that writes nothing.
pub fn reply(alloc: Global, answer: u16) -> Reply {
    Reply {
        answer,
        writes: Blocks::from_vec(Vec::new(alloc)),
    }
}

// A reply that writes a byte.
fn writing(alloc: Global) -> Result<Reply, AllocError> {
    let block = Block {
        at: 0x200,
        bytes: Bytes::from_vec(vec![in alloc; 1]?),
    };
    Ok(Reply {
        answer: 0,
        writes: Blocks::from_vec(vec![in alloc; block]?),
    })
}
