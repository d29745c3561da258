// What machines ask, as text.
use crate::words::{push_byte, push_number, push_word};
use dialogue::{ArgWord, Block, Event, Range, Request};
use std::alloc::{AllocError, Global};

/// Whether two events are told alike.
pub fn is_same(
    alloc: Global,
    one: Option<&Event>,
    other: Option<&Event>,
) -> Result<bool, AllocError> {
    let mut text = String::new(alloc);
    push_event(&mut text, one)?;
    let mut second = String::new(alloc);
    push_event(&mut second, other)?;
    Ok(text == second)
}

/// Adds what waits for its reply: `in 7`, `out 8 255`, or a call with its function, its argument, what it reads and what it may
/// write.
pub fn push_event(text: &mut String, event: Option<&Event>) -> Result<(), AllocError> {
    match event {
        None => text.push_str(" nothing asked"),
        Some(Event::End) => text.push_str(" end"),
        Some(Event::In(port)) => push_number(text, " in ", u32::from(*port)),
        Some(Event::Out(port, byte)) => {
            push_number(text, " out ", u32::from(*port))?;
            push_number(text, " ", u32::from(*byte))
        }
        Some(Event::Call(request)) => push_request(text, request),
    }
}

fn push_request(text: &mut String, request: &Request) -> Result<(), AllocError> {
    push_number(text, " call ", u32::from(request.shape.function))?;
    push_argument(text, request.shape.arg)?;
    push_ranges(text, " reads ", &request.shape.reads)?;
    push_ranges(text, " writes ", &request.shape.writes)?;
    for block in request.blocks.as_slice() {
        push_block(text, block)?;
    }
    Ok(())
}

fn push_argument(text: &mut String, argument: ArgWord) -> Result<(), AllocError> {
    match argument {
        ArgWord::None => Ok(()),
        ArgWord::Byte(byte) => push_byte(text, " ", byte),
        ArgWord::Word(word) => push_word(text, " ", word),
    }
}

/// Adds the ranges that there are.
pub fn push_ranges(
    text: &mut String,
    name: &str,
    ranges: &[Option<Range>],
) -> Result<(), AllocError> {
    for range in ranges {
        push_range(text, name, *range)?;
    }
    Ok(())
}

fn push_range(text: &mut String, name: &str, range: Option<Range>) -> Result<(), AllocError> {
    match range {
        Some(Range { at, len }) => {
            push_word(text, name, at)?;
            push_number(text, "+", u32::from(len))
        }
        None => Ok(()),
    }
}

fn push_block(text: &mut String, block: &Block) -> Result<(), AllocError> {
    push_word(text, " ", block.at)?;
    text.push(':')?;
    for byte in block.bytes.as_slice() {
        push_byte(text, "", *byte)?;
    }
    Ok(())
}
