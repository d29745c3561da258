// What a reply may answer and write, and what it leaves.
ghost use Rattle.std.specs.Prelude.{◌≡◌};
ghost use Rattle.dialogue.specs.Fits.{answer_fits, fills_range, writes_fit, line_bytes_fit, line_fits, fits, fits_event, kind_by, answer_kind_of, dma_after};
ghost use Rattle.dialogue.specs.Shape.{ranges};

use crate::blocks::Block;
use crate::request::{ArgWord, Event, Range, Reply, Request};
use crate::shape::address_of;
use crate::table::{AnswerKind, AnswerRule, row_of};

/// The function that reads a line into a buffer.
const READ_LINE: u8 = 10;

/// The function that sets the DMA address, and the one that resets the disks.
const SET_DMA: u8 = 26;

const RESET_DISKS: u8 = 13;

/// The DMA address at the start and after the disks are reset.
const DEFAULT_DMA: u16 = 0x80;

/// Whether a request may get a reply: its answer is of the function's kind, and it writes each of the request's ranges
/// wholly once or not at all, in order; a line buffer is written once, by a line that has room in it.
pub fn fits(request: &Request, reply: &Reply) -> bool
    ensures { result ≡ fits request.now reply.now }
{
    let shape = &request.shape;
    let Some(row) = row_of(shape.function) else {
        return false;
    };
    let writes = reply.writes.as_slice();
    let written = if shape.function == READ_LINE {
        line_fits(shape.writes, writes)
    } else {
        writes_fit(&shape.writes, writes)
    };
    written && answer_fits(kind_by(row.answer, shape.arg), reply.answer)
}

/// Whether an event may get a reply: a call as `fits` says; an IN any byte, and an OUT the answer 0, and these write nothing.
/// The end gets none.
pub fn fits_event(event: &Event, reply: &Reply) -> bool
    ensures { result ≡ fits_event event.now reply.now }
{
    match event {
        Event::Call(request) => fits(request, reply),
        Event::In(_) => reply.answer < 256 && reply.writes.as_slice().is_empty(),
        Event::Out(_, _) => reply.answer == 0 && reply.writes.as_slice().is_empty(),
        Event::End => false,
    }
}

/// What the call of a request answers: of function 6 its argument decides.
pub fn answer_of(request: &Request) -> AnswerKind
    ensures { result ≡ answer_kind_of request.now }
{
    match row_of(request.shape.function) {
        Some(row) => kind_by(row.answer, request.shape.arg),
        None => AnswerKind::NoAnswer,
    }
}

/// The DMA address after a call: function 26 sets it, function 13 sets it to 80H.
pub fn dma_after(request: &Request, dma: u16) -> u16
    ensures { result ≡ dma_after request.now dma }
{
    match request.shape.function {
        SET_DMA => address_of(request.shape.arg),
        RESET_DISKS => DEFAULT_DMA,
        _ => dma,
    }
}

/// The kind of a call's answer, by its argument.
fn kind_by(rule: AnswerRule, arg: ArgWord) -> AnswerKind
    ensures { result ≡ kind_by rule arg }
{
    match (rule, arg) {
        (AnswerRule::Always(kind), _) => kind,
        (AnswerRule::ByteWhere(asked), ArgWord::Byte(e)) if e == asked => AnswerKind::ByteAnswer,
        (AnswerRule::ByteWhere(_), _) => AnswerKind::NoAnswer,
    }
}

/// Whether an answer is of a kind.
fn answer_fits(kind: AnswerKind, answer: u16) -> bool
    ensures { result ≡ answer_fits kind answer }
{
    match kind {
        AnswerKind::NoAnswer => answer == 0,
        AnswerKind::ByteAnswer => answer < 256,
        AnswerKind::WordAnswer => true,
    }
}

/// Whether a block fills a range.
fn fills(range: Range, block: &Block) -> bool
    ensures { result ≡ fills_range range block.now }
{
    block.at == range.at && block.bytes.as_slice().len() == usize::from(range.len)
}

/// Whether the blocks fill ranges of a list, each at most once and in order.
fn writes_fit(places: &[Option<Range>], blocks: &[Block]) -> bool
    ensures { result ≡ writes_fit (ranges places.now) blocks.now }
{
    let mut left = blocks;
    for place in places {
        if let (Some(range), [block, rest @ ..]) = (place, left) {
            if fills(*range, block) {
                left = rest;
            }
        }
    }
    left.is_empty()
}

/// Whether the blocks are one line with its length before it, where the first range begins, that has room there.
fn line_fits(places: [Option<Range>; 2], blocks: &[Block]) -> bool
    ensures { result ≡ line_fits (ranges places) blocks.now }
{
    let [first, second] = places;
    match (first.or(second), blocks) {
        (Some(range), [block]) => {
            block.at == range.at && line_bytes_fit(range.len, block.bytes.as_slice())
        }
        _ => false,
    }
}

/// Whether bytes are a line's length k, below the room, and k bytes.
fn line_bytes_fit(room: u16, bytes: &[u8]) -> bool
    ensures { result ≡ line_bytes_fit room bytes.now }
{
    match bytes {
        [k, line @ ..] => u16::from(*k) < room && line.len() == usize::from(*k),
        [] => false,
    }
}
