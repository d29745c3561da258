// The lines of events.
ghost use Rattle.std.specs.Prelude.{◌≡◌, ◌<◌, ◌++◌, IfOk, IfErr, OnOk};
ghost use Rattle.host.specs.Host.{Says, SameFaults, OnlySays};
ghost use Rattle.hex.specs.Hex.{encode_lower};
ghost use Rattle.emulator_loop.specs.Advance.{IsLineCutOff};
ghost use Rattle.emulator_loop.specs.Lines.{blank_then, arg_text, bytes_text, blocks_text, call_line, event_line, prefixed_line};

use crate::fault::TalkFault;
use dialogue::{ArgWord, Block, Event, Request};
use host::Host;
use host_files::say_line;
use std::alloc::{AllocError, Global};

/// Says an event, in a line that begins with a text.
pub fn say_event<H: Host>(
    alloc: Global,
    host: &mut H,
    prefix: &[u8],
    event: &Event,
) -> Result<(), TalkFault>
    ensures only { OnlySays (H.state host.old) (H.state host.new) }
    ensures ok { OnOk result (Says (H.state host.old) (H.state host.new) (prefixed_line prefix.now event.now)) }
    ensures counted { OnOk result (SameFaults (H.state host.old) (H.state host.new)) }
    ensures cut { IfErr result (IsLineCutOff (prefixed_line prefix.now event.now) (H.state host.old) (H.state host.new)) }
{
    let line = prefixed_line(alloc, prefix, event)?;
    Ok(say_line(host, line.as_slice())?)
}

// The line of an event behind a text.
fn prefixed_line(alloc: Global, prefix: &[u8], event: &Event) -> Result<Vec<u8>, AllocError>
    ensures { IfOk result (λ line. line.items ≡ prefixed_line prefix.now event.now) }
{
    let mut line = Vec::from_slice(alloc, prefix)?;
    push_event(alloc, &mut line, event)?;
    Ok(line)
}

// Adds the line of an event: of an IN the port, of an OUT the port and then the byte.
fn push_event(alloc: Global, line: &mut Vec<u8>, event: &Event) -> Result<(), AllocError>
    ensures { OnOk result (line.new.items ≡ line.old.items ++ event_line event.now) }
{
    match event {
        Event::Call(request) => push_call(alloc, line, request),
        Event::In(port) => {
            line.extend_from_slice(b"in")?;
            push_spaced(alloc, line, &[*port])?;
            line.extend_from_slice(b"\n")
        }
        Event::Out(port, byte) => {
            line.extend_from_slice(b"out")?;
            push_spaced(alloc, line, &[*port])?;
            push_spaced(alloc, line, &[*byte])?;
            line.extend_from_slice(b"\n")
        }
        Event::End => line.extend_from_slice(b"end\n"),
    }
}

// Adds the line of a call.
fn push_call(alloc: Global, line: &mut Vec<u8>, request: &Request) -> Result<(), AllocError>
    ensures { OnOk result (line.new.items ≡ line.old.items ++ call_line request.now) }
{
    push_digits(alloc, line, &[request.shape.function])?;
    push_argument(alloc, line, request.shape.arg)?;
    push_blocks(alloc, line, request.blocks.as_slice())?;
    line.extend_from_slice(b"\n")
}

// Bytes in hexadecimal digits.
fn push_digits(alloc: Global, line: &mut Vec<u8>, bytes: &[u8]) -> Result<(), AllocError>
    ensures { OnOk result (line.new.items ≡ line.old.items ++ encode_lower bytes.now) }
{
    let digits = hex::encode(alloc, bytes)?;
    line.extend_from_slice(digits.as_bytes())
}

// A blank, and the digits of bytes.
fn push_spaced(alloc: Global, line: &mut Vec<u8>, bytes: &[u8]) -> Result<(), AllocError>
    ensures { OnOk result (line.new.items ≡ line.old.items ++ blank_then bytes.now) }
{
    line.push(b' ')?;
    push_digits(alloc, line, bytes)
}

// The argument of a call.
fn push_argument(alloc: Global, line: &mut Vec<u8>, arg: ArgWord) -> Result<(), AllocError>
    ensures { OnOk result (line.new.items ≡ line.old.items ++ arg_text arg) }
{
    match arg {
        ArgWord::None => Ok(()),
        ArgWord::Byte(byte) => push_spaced(alloc, line, &[byte]),
        ArgWord::Word(word) => {
            push_spaced(alloc, line, &[(word / 256) as u8, (word % 256) as u8])
        }
    }
}

// The bytes of a block, or a dash where it is empty.
fn push_block(alloc: Global, line: &mut Vec<u8>, bytes: &[u8]) -> Result<(), AllocError>
    ensures { OnOk result (line.new.items ≡ line.old.items ++ bytes_text bytes.now) }
{
    if bytes.is_empty() {
        line.extend_from_slice(b" -")
    } else {
        push_spaced(alloc, line, bytes)
    }
}

// The blocks of a call.
fn push_blocks(alloc: Global, line: &mut Vec<u8>, blocks: &[Block]) -> Result<(), AllocError>
    ensures { OnOk result (line.new.items ≡ line.old.items ++ blocks_text blocks.now) }
{
    for block in blocks {
        push_block(alloc, line, block.bytes.as_slice())?;
    }
    Ok(())
}
