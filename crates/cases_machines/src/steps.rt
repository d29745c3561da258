// Single instructions of the 8086, and its calls of the system with their replies.
use crate::events::push_ranges;
use crate::states::{push_changes, put, start};
use crate::words::{bytes_of, number_of, push_number, value_of};
use cpu86::processor::Processor;
use cpu86::system::Interrupt;
use dialogue::{Block, Blocks, Bytes, Reply, Request, Shape, fits};
use i86::{Instr86, decode};
use std::alloc::{AllocError, Global};

/// The answer of a case `NAME: CODE WORDS`: what the instruction with these bytes changes in the state with the places of the words.
pub fn answer(alloc: Global, case: &str) -> Result<Option<String>, AllocError> {
    let (_, case) = case.split_once(": ").unwrap_or(("", case));
    let (code, words) = case.split_once(' ').unwrap_or((case, ""));
    let bytes = bytes_of(alloc, code)?;
    let Some((instr, _)) = decode(bytes.as_slice()) else {
        return Ok(None);
    };
    let before = state_of(alloc, words)?;
    let mut after = state_of(alloc, words)?;
    let mut text = String::new(alloc);
    run(alloc, &mut text, &mut after, instr, words)?;
    push_changes(&mut text, &before, &after)?;
    if text.is_empty() {
        text.push_str(" nothing")?;
    }
    Ok(Some(text))
}

// The state with the places of the words put into it.
fn state_of(alloc: Global, words: &str) -> Result<Processor, AllocError> {
    let mut processor = start(alloc)?;
    for word in words.split(' ') {
        if let Some((place, value)) = word.split_once('=') {
            put(&mut processor, place, value);
        }
    }
    Ok(processor)
}

// Runs an instruction. Of a call of the system it tells what comes of it.
fn run(
    alloc: Global,
    text: &mut String,
    processor: &mut Processor,
    instr: Instr86,
    words: &str,
) -> Result<(), AllocError> {
    let choice = number_of(words, "choice").unwrap_or(0);
    match instr {
        Instr86::Int224 => call(alloc, text, processor, choice, words),
        _ => {
            processor.execute(instr, choice);
            Ok(())
        }
    }
}

// Calls the system, where the next instruction stands at 0104H, and takes its reply, if the words have its answer.
fn call(
    alloc: Global,
    text: &mut String,
    processor: &mut Processor,
    choice: u128,
    words: &str,
) -> Result<(), AllocError> {
    match processor.interrupt(0x0104, choice) {
        Interrupt::Ends => text.push_str(" ends"),
        Interrupt::Odd(function) => push_number(text, " odd ", u32::from(function)),
        Interrupt::Asks(shape) => {
            push_number(text, " asks ", u32::from(shape.function))?;
            push_ranges(text, " ", &shape.reads)?;
            match number_of(words, "answer") {
                Some(answer) => reply(
                    alloc,
                    text,
                    processor,
                    shape,
                    (answer % 0x1_0000) as u16,
                    words,
                ),
                None => Ok(()),
            }
        }
    }
}

// Takes the reply with this answer, which writes what the words say.
fn reply(
    alloc: Global,
    text: &mut String,
    processor: &mut Processor,
    shape: Shape,
    answer: u16,
    words: &str,
) -> Result<(), AllocError> {
    let request = Request {
        shape,
        blocks: Blocks::from_vec(Vec::new(alloc)),
    };
    let reply = Reply {
        answer,
        writes: Blocks::from_vec(writes_of(alloc, words)?),
    };
    if fits(&request, &reply) {
        let choice = number_of(words, "after").unwrap_or(0);
        processor.take_reply(&request, &reply, choice);
        return Ok(());
    }
    text.push_str(" does not fit")
}

// The block that the words have, as `writes=007d:0102`.
fn writes_of(alloc: Global, words: &str) -> Result<Vec<Block>, AllocError> {
    let mut blocks = Vec::new(alloc);
    if let Some((at, bytes)) = value_of(words, "writes").unwrap_or("").split_once(':')
        && let Ok(at) = u16::from_str_radix(at, 16)
    {
        let bytes = Bytes::from_vec(bytes_of(alloc, bytes)?);
        blocks.push(Block { at, bytes })?;
    }
    Ok(blocks)
}
