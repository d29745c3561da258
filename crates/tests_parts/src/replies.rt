// Which replies fit a request, what kind of answer a function has, and the DMA address that it leaves.
use crate::memory::request;
use dialogue::{
    AnswerKind, Block, Blocks, Bytes, Event, Reply, answer_of, dma_after, fits, fits_event,
};
use std::alloc::{AllocError, Global};

/// A block: its address, how many bytes it has, and the first of them, behind which there are ones. At address 0 there is none.
type Write = (u16, usize, u8);

const NO: Write = (0, 0, 0);

/// The blocks of a reply.
type Writes = (Write, Write, Write);

/// The bytes of a block.
fn bytes_of(alloc: Global, (_, count, first): Write) -> Result<Bytes, AllocError> {
    let mut bytes = Vec::new(alloc);
    bytes.resize(count, 1)?;
    if let Some(byte) = bytes.first_mut() {
        *byte = first;
    }
    Ok(Bytes::from_vec(bytes))
}

/// A reply with this answer and these blocks.
fn reply_of(alloc: Global, answer: u16, (a, b, c): Writes) -> Result<Reply, AllocError> {
    let mut blocks = Vec::new(alloc);
    for write in [a, b, c] {
        let at = write.0;
        if at != 0 {
            let bytes = bytes_of(alloc, write)?;
            blocks.push(Block { at, bytes })?;
        }
    }
    Ok(Reply {
        answer,
        writes: Blocks::from_vec(blocks),
    })
}

/// What is asked: a call of a function with a byte in E, a byte of a port, that a port takes a byte, or the end.
#[derive(Clone, Copy)]
enum Asked {
    Call(u8, u8),
    In(u8),
    Out(u8, u8),
    End,
}

/// The event of what is asked; none where a function has no request.
fn event_of(alloc: Global, asked: Asked) -> Result<Option<Event>, AllocError> {
    match asked {
        Asked::Call(function, e) => match request(alloc, function, e, 5)? {
            Some(request) => Ok(Some(Event::Call(request))),
            None => Ok(None),
        },
        Asked::In(port) => Ok(Some(Event::In(port))),
        Asked::Out(port, byte) => Ok(Some(Event::Out(port, byte))),
        Asked::End => Ok(Some(Event::End)),
    }
}

/// Whether a reply fits an event, and of a call also its request; none where the two are not the same.
fn fits_both(event: &Event, reply: &Reply) -> Option<bool> {
    let fits_it = fits_event(event, reply);
    match event {
        Event::Call(request) if fits(request, reply) != fits_it => None,
        _ => Some(fits_it),
    }
}

/// Whether what is asked may get a reply with this answer and these blocks.
fn may_get(
    alloc: Global,
    asked: Asked,
    answer: u16,
    writes: Writes,
) -> Result<Option<bool>, AllocError> {
    let reply = reply_of(alloc, answer, writes)?;
    match event_of(alloc, asked)? {
        Some(event) => Ok(fits_both(&event, &reply)),
        None => Ok(None),
    }
}

/// What is asked, a reply's answer and blocks, and whether it fits.
type Answered = (Asked, u16, Writes, bool);

#[rattlefmt::skip]
static REPLIES: [Answered; 38] = [
    // No answer, an answer where there is none, and a write where there is none.
    (Asked::Call(2, 0), 0, (NO, NO, NO), true),
    (Asked::Call(2, 0), 1, (NO, NO, NO), false),
    (Asked::Call(2, 0), 0, ((0x200, 1, 1), NO, NO), false),
    // A byte, 256 for a byte, and a word.
    (Asked::Call(1, 0), 255, (NO, NO, NO), true),
    (Asked::Call(1, 0), 256, (NO, NO, NO), false),
    (Asked::Call(12, 0), 65535, (NO, NO, NO), true),
    // Both ranges, one of them, and neither.
    (Asked::Call(20, 0), 0, ((0x20C, 21, 1), (0x80, 128, 1), NO), true),
    (Asked::Call(20, 0), 0, ((0x20C, 21, 1), NO, NO), true),
    (Asked::Call(20, 0), 0, ((0x80, 128, 1), NO, NO), true),
    (Asked::Call(20, 0), 0xFF, (NO, NO, NO), true),
    // A range twice, and both in the wrong order.
    (Asked::Call(20, 0), 0, ((0x20C, 21, 1), (0x20C, 21, 1), NO), false),
    (Asked::Call(20, 0), 0, ((0x80, 128, 1), (0x80, 128, 1), NO), false),
    (Asked::Call(20, 0), 0, ((0x80, 128, 1), (0x20C, 21, 1), NO), false),
    // A range partly, a range and more, a cell further on, and a range too many.
    (Asked::Call(20, 0), 0, ((0x20C, 20, 1), NO, NO), false),
    (Asked::Call(20, 0), 0, ((0x20C, 22, 1), NO, NO), false),
    (Asked::Call(20, 0), 0, ((0x20D, 21, 1), NO, NO), false),
    (Asked::Call(20, 0), 0, ((0x20C, 21, 1), (0x80, 128, 1), (0x80, 128, 1)), false),
    // A line of mx bytes, of one more, and of none.
    (Asked::Call(10, 0), 0, ((0x201, 6, 5), NO, NO), true),
    (Asked::Call(10, 0), 0, ((0x201, 7, 6), NO, NO), false),
    (Asked::Call(10, 0), 0, ((0x201, 1, 0), NO, NO), true),
    // A first byte that is not the number of the others, an empty block, no line, and two.
    (Asked::Call(10, 0), 0, ((0x201, 3, 3), NO, NO), false),
    (Asked::Call(10, 0), 0, ((0x201, 0, 0), NO, NO), false),
    (Asked::Call(10, 0), 0, (NO, NO, NO), false),
    (Asked::Call(10, 0), 0, ((0x201, 1, 0), (0x201, 1, 0), NO), false),
    // A line elsewhere, and a line with an answer.
    (Asked::Call(10, 0), 0, ((0x200, 1, 0), NO, NO), false),
    (Asked::Call(10, 0), 1, ((0x201, 1, 0), NO, NO), false),
    // Function 6 answers a byte where it asks for one.
    (Asked::Call(6, 0xFF), 255, (NO, NO, NO), true),
    (Asked::Call(6, 0xFF), 256, (NO, NO, NO), false),
    (Asked::Call(6, 0x41), 0, (NO, NO, NO), true),
    (Asked::Call(6, 0x41), 1, (NO, NO, NO), false),
    // An IN takes any byte and an OUT the answer 0; neither takes a write, and the end takes no reply.
    (Asked::In(7), 0, (NO, NO, NO), true),
    (Asked::In(7), 255, (NO, NO, NO), true),
    (Asked::In(7), 256, (NO, NO, NO), false),
    (Asked::In(7), 0, ((0x200, 1, 1), NO, NO), false),
    (Asked::Out(7, 1), 0, (NO, NO, NO), true),
    (Asked::Out(7, 1), 1, (NO, NO, NO), false),
    (Asked::Out(7, 1), 0, ((0x200, 1, 1), NO, NO), false),
    (Asked::End, 0, (NO, NO, NO), false),
];

#[test]
fn replies_that_fit(rt: HostRuntime) -> Result<(), AllocError> {
    for (asked, answer, writes, want) in &REPLIES {
        assert!(rt; may_get(rt.alloc(), *asked, *answer, *writes)? == Some(*want));
    }
    Ok(())
}

/// What a function answers, and the DMA address that it leaves of 1234H.
fn after(alloc: Global, function: u8) -> Result<Option<(AnswerKind, u16)>, AllocError> {
    match request(alloc, function, 0, 5)? {
        Some(request) => Ok(Some((answer_of(&request), dma_after(&request, 0x1234)))),
        None => Ok(None),
    }
}

#[test]
fn answers_and_the_dma_address(rt: HostRuntime) -> Result<(), AllocError> {
    for (function, answer, dma) in [
        (1, AnswerKind::ByteAnswer, 0x1234),
        (12, AnswerKind::WordAnswer, 0x1234),
        (13, AnswerKind::NoAnswer, 0x80),
        (26, AnswerKind::NoAnswer, 0x200),
    ] {
        assert!(rt; after(rt.alloc(), function)? == Some((answer, dma)));
    }
    Ok(())
}
