// A line of input.
ghost use Rattle.std.specs.Prelude.{◌≡◌, ◌<◌, ◌≤◌, drop, length, IfOk};
ghost use Rattle.bdos_small.specs.Console.{line_read, line_left};

use std::alloc::{AllocError, Global};

/// What ends a line of input, and what is no part of it.
const LINE_FEED: u8 = 0x0A;

const CARRIAGE_RETURN: u8 = 0x0D;

/// The bytes of a line, and how many bytes of input it takes, those that are not kept among them.
#[derive(Drop)]
pub struct Line {
    pub bytes: Vec<u8>,
    pub used: usize,
}

/// Reads a line of up to `room` bytes from the front of the input. A LF ends it and is taken, but not where the line has no
/// room left.
pub fn read_line(alloc: Global, input: &[u8], room: u8) -> Result<Line, AllocError>
    ensures bytes { IfOk result (λ l. l.bytes.items ≡ line_read room input.now) }
    ensures left { IfOk result (λ l. drop l.used input.now ≡ line_left room input.now) }
    ensures within { IfOk result (λ l. l.used ≤ length input.now) }
{
    let mut bytes = Vec::new(alloc);
    for (used, byte) in input.iter().enumerate() {
        if bytes.len() == usize::from(room) {
            return Ok(Line { bytes, used });
        }
        if *byte == LINE_FEED {
            return Ok(Line {
                bytes,
                used: used + 1,
            });
        }
        if *byte != CARRIAGE_RETURN {
            bytes.push(*byte)?;
        }
    }
    Ok(Line {
        bytes,
        used: input.len(),
    })
}
