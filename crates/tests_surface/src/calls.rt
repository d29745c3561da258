// What a program asks of the system and is answered: `dialogue`.
use cells::Rule;
use dialogue::{
    ArgWord, Block, Blocks, Bytes, Event, Page, Range, Reply, Request, Shape, View, fits,
    request_of, shape_of,
};
use std::alloc::{AllocError, Global};
use std::test::Fail;

/// Memory in which every cell can be read and written, and holds a dollar sign.
struct Dollars;

impl View for Dollars {
    ghost use Rattle.std.specs.Prelude.{true, Some};

    ghost byte_at = { λ v at. Some 0x24 };

    ghost is_writable = { λ v at. true };

    fn byte(&self, _at: u16) -> Option<u8> {
        Some(b'$')
    }

    fn writable(&self, _at: u16) -> bool {
        true
    }
}

/// The empty reply.
pub fn nothing(alloc: Global) -> Reply {
    Reply {
        answer: 0,
        writes: Blocks::from_vec(Vec::new(alloc)),
    }
}

// Function 10 with its buffer at 200H, which has room for 24H characters.
fn line_request(alloc: Global) -> Result<Option<Request>, AllocError> {
    match shape_of(Some(10), Some(2), Some(0), 0x80, &Dollars) {
        Ok(shape) => Ok(Some(request_of(alloc, shape, &Dollars)?)),
        Err(_) => Ok(None),
    }
}

#[test]
fn a_call_is_asked(rt: HostRuntime) -> Result<(), Fail> {
    assert!(rt; shape_of(Some(3), None, None, 0x80, &Dollars).err() == Some(Rule::P9));
    let request = line_request(rt.alloc())?.ok_or("a request")?;
    let Shape { arg, reads, .. } = request.shape;
    assert!(rt; arg == ArgWord::Word(0x200) && reads[0] == Some(Range { at: 0x200, len: 1 }));
    let [block] = request.blocks.as_slice() else {
        return Err("one block")?;
    };
    assert!(rt; block.at == 0x200 && block.bytes.as_slice() == b"$".as_slice());
    Ok(())
}

// A line of one character.
fn line_reply(alloc: Global) -> Result<Reply, AllocError> {
    let line = Bytes::from_vec(Vec::from_slice(alloc, &[1, b'A'])?);
    let mut writes = Vec::new(alloc);
    writes.push(Block {
        at: 0x201,
        bytes: line,
    })?;
    Ok(Reply {
        answer: 0,
        writes: Blocks::from_vec(writes),
    })
}

#[test]
fn a_call_is_answered(rt: HostRuntime) -> Result<(), Fail> {
    let request = line_request(rt.alloc())?.ok_or("a request")?;
    assert!(rt; !fits(&request, &nothing(rt.alloc())));
    assert!(rt; fits(&request, &line_reply(rt.alloc())?));
    let event = Event::Call(request);
    assert!(rt; matches!(event, Event::Call(_)) && !matches!(event, Event::End));
    Ok(())
}

#[test]
fn a_tail_makes_a_page(rt: HostRuntime) -> Result<(), Fail> {
    let page: Page = Page::of_tail(b"A").ok_or("a page")?;
    // From 5CH up: the first file's name at 5DH, and at 80H the length of the tail and of the blank before it.
    assert!(rt; page.bytes().len() == 164 && page.bytes()[1] == b'A' && page.bytes()[0x24] == 2);
    assert!(rt; Page::of_tail(b"\t").is_none());
    Ok(())
}
