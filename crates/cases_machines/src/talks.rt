// Machines that run on, with a reply to all that they ask.
use crate::machines::{Machine, Step};
use crate::scripts::{push_step, reply};
use crate::words::{push_byte, push_number};
use dialogue::{ArgWord, Block, Blocks, Bytes, Event, Range, Reply, Request};
use std::alloc::{AllocError, Global};

/// What was asked: the functions that were called, and the bytes that were written or sent to ports, and
/// whether a record was read.
#[derive(Drop)]
struct Talk {
    calls: Vec<u8>,
    said: Vec<u8>,
    has_read: bool,
}

/// Runs a machine up to a step that neither runs nor asks: how many steps came before it, what they asked, and what it answers.
pub fn run<M: Machine>(
    alloc: Global,
    text: &mut String,
    machine: &mut M,
    choice: u128,
    answer: u16,
) -> Result<(), AllocError>
    requires { M.runs machine.old }
    ensures { M.runs machine.new }
{
    let mut talk = Talk {
        calls: Vec::new(alloc),
        said: Vec::new(alloc),
        has_read: false,
    };
    for count in 0..400u32 {
        match machine.step(choice) {
            Step::Ran => {}
            Step::Asked => {
                if !turn(alloc, machine, &mut talk, choice, answer)? {
                    return text.push_str(" does not go on");
                }
            }
            last => return push_run(text, &talk, count, last),
        }
    }
    text.push_str(" runs on")
}

// Replies to what is asked; false where nothing is asked or the reply does not fit.
fn turn<M: Machine>(
    alloc: Global,
    machine: &mut M,
    talk: &mut Talk,
    choice: u128,
    answer: u16,
) -> Result<bool, AllocError>
    requires { M.runs machine.old }
    ensures { M.runs machine.new }
{
    match machine.asked(alloc)? {
        Some(event) => {
            let reply = reply_to(alloc, talk, &event, answer)?;
            Ok(machine.reply(&reply, choice))
        }
        None => Ok(false),
    }
}

// The reply to an event, which is written down: 41H to an IN.
fn reply_to(
    alloc: Global,
    talk: &mut Talk,
    event: &Event,
    answer: u16,
) -> Result<Reply, AllocError> {
    match event {
        Event::Call(request) => {
            let reply = reply_to_call(alloc, request, talk.has_read, answer)?;
            talk.add_call(request)?;
            Ok(reply)
        }
        Event::Out(_, byte) => {
            talk.said.push(*byte)?;
            Ok(reply(alloc, 0))
        }
        Event::In(_) | Event::End => Ok(reply(alloc, 0x41)),
    }
}

impl Talk {
    // The functions in decimal digits, the bytes in hexadecimal ones.
    fn push(&self, text: &mut String) -> Result<(), AllocError> {
        if !self.calls.is_empty() {
            text.push_str(" calls")?;
        }
        for function in &self.calls {
            push_number(text, " ", u32::from(*function))?;
        }
        if !self.said.is_empty() {
            text.push_str(" says")?;
        }
        for byte in &self.said {
            push_byte(text, " ", *byte)?;
        }
        Ok(())
    }

    fn add_call(&mut self, request: &Request) -> Result<(), AllocError> {
        self.calls.push(request.shape.function)?;
        self.has_read |= request.shape.function == 20;
        if let ArgWord::Byte(byte) = request.shape.arg {
            self.said.push(byte)?;
        }
        Ok(())
    }
}

// The reply to a call: a file that is made has zeros in its block, the first record that is read is of one letter, and there is no
// second one.
fn reply_to_call(
    alloc: Global,
    request: &Request,
    has_read: bool,
    answer: u16,
) -> Result<Reply, AllocError> {
    let [block, record] = request.shape.writes;
    let (answer, writes) = match request.shape.function {
        19 => (0xFF, Vec::new(alloc)),
        20 if has_read => (1, Vec::new(alloc)),
        20 => (0, filled(alloc, record, b'a')?),
        22 => (0, filled(alloc, block, 0)?),
        _ => (answer, Vec::new(alloc)),
    };
    Ok(Reply {
        answer,
        writes: Blocks::from_vec(writes),
    })
}

// A block of one byte, if there is a range for it.
fn filled(alloc: Global, range: Option<Range>, byte: u8) -> Result<Vec<Block>, AllocError> {
    let mut blocks = Vec::new(alloc);
    if let Some(Range { at, len }) = range {
        let bytes = Bytes::from_vec(vec![in alloc; byte; usize::from(len)]?);
        blocks.push(Block { at, bytes })?;
    }
    Ok(blocks)
}

fn push_run(text: &mut String, talk: &Talk, count: u32, last: Step) -> Result<(), AllocError> {
    push_number(text, " ", count)?;
    text.push_str(" steps")?;
    talk.push(text)?;
    push_step(text, last)
}
