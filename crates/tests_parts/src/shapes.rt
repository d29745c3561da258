// The shapes of the calls of the table, the rules that calls break, and the blocks that requests have.
use crate::memory::{Cells, NONE, filled, request};
use cells::Rule;
use dialogue::{ArgWord, Block, Range, shape_of};
use std::alloc::{AllocError, Global};

/// Where cells begin, and how many they are; none at 0.
type Place = (u16, u16);

const NO: Place = (0, 0);

/// A function with DE 200H, the DMA address 80H, cells that hold 5 and a `$` at 205H: its argument, and what it reads and
/// may write.
type Call = (u8, ArgWord, (Place, Place, Place), (Place, Place));

#[rattlefmt::skip]
static CALLS: [Call; 25] = [
    (0, ArgWord::None, (NO, NO, NO), (NO, NO)),
    (1, ArgWord::None, (NO, NO, NO), (NO, NO)),
    (2, ArgWord::Byte(0), (NO, NO, NO), (NO, NO)),
    (6, ArgWord::Byte(0), (NO, NO, NO), (NO, NO)),
    (9, ArgWord::Word(0x200), ((0x200, 5), NO, NO), (NO, NO)),
    (10, ArgWord::Word(0x200), ((0x200, 1), NO, NO), ((0x201, 6), NO)),
    (11, ArgWord::None, (NO, NO, NO), (NO, NO)),
    (12, ArgWord::None, (NO, NO, NO), (NO, NO)),
    (13, ArgWord::None, (NO, NO, NO), (NO, NO)),
    (14, ArgWord::Byte(0), (NO, NO, NO), (NO, NO)),
    (15, ArgWord::Word(0x200), ((0x200, 13), NO, NO), ((0x200, 32), NO)),
    (16, ArgWord::Word(0x200), ((0x200, 32), NO, NO), ((0x20C, 20), NO)),
    (17, ArgWord::Word(0x200), ((0x200, 13), NO, NO), ((0x80, 128), NO)),
    (18, ArgWord::None, (NO, NO, NO), ((0x80, 128), NO)),
    (19, ArgWord::Word(0x200), ((0x200, 12), NO, NO), (NO, NO)),
    (20, ArgWord::Word(0x200), ((0x200, 33), NO, NO), ((0x20C, 21), (0x80, 128))),
    (21, ArgWord::Word(0x200), ((0x200, 33), (0x80, 128), NO), ((0x20C, 21), NO)),
    (22, ArgWord::Word(0x200), ((0x200, 13), NO, NO), ((0x200, 32), NO)),
    (23, ArgWord::Word(0x200), ((0x200, 12), (0x210, 12), NO), (NO, NO)),
    (25, ArgWord::None, (NO, NO, NO), (NO, NO)),
    (26, ArgWord::Word(0x200), (NO, NO, NO), (NO, NO)),
    (33, ArgWord::Word(0x200), ((0x200, 32), (0x221, 3), NO), ((0x20C, 21), (0x80, 128))),
    (34, ArgWord::Word(0x200), ((0x200, 32), (0x221, 3), (0x80, 128)), ((0x20C, 21), NO)),
    (35, ArgWord::Word(0x200), ((0x200, 12), NO, NO), ((0x221, 3), NO)),
    (36, ArgWord::Word(0x200), ((0x20C, 1), (0x20E, 1), (0x220, 1)), ((0x221, 3), NO)),
];

/// The range of a place.
fn range((at, len): Place) -> Option<Range> {
    if at == 0 {
        None
    } else {
        Some(Range { at, len })
    }
}

/// Whether a call has the shape of a row.
fn is_shape(call: &Call) -> bool {
    let (function, arg, (a, b, c), (d, e)) = *call;
    let view = filled(5);
    match shape_of(Some(function), Some(2), Some(0), 0x80, &view) {
        Ok(shape) => shape.function == function
            && shape.arg == arg
            && shape.reads == [range(a), range(b), range(c)]
            && shape.writes == [range(d), range(e)],
        Err(_) => false,
    }
}

#[test]
fn shapes_of_the_table(rt: HostRuntime) {
    for call in &CALLS {
        assert!(rt; is_shape(call));
    }
}

/// A call with a word in DE and a DMA address over cells, and the rule that it breaks.
type Edge = (u8, u16, u16, (u8, u32, u32, u32), Option<Rule>);

#[rattlefmt::skip]
static EDGES: [Edge; 37] = [
    (3, 0x200, 0x80, (5, NONE, NONE, NONE), Some(Rule::P9)), // function 3
    (7, 0x200, 0x80, (5, NONE, NONE, NONE), Some(Rule::P9)), // function 7
    (6, 0x2FD, 0x80, (5, NONE, NONE, NONE), None), // direct output of 0FDH
    (6, 0x2FE, 0x80, (5, NONE, NONE, NONE), Some(Rule::P10)), // direct console with 0FEH
    (6, 0x2FF, 0x80, (5, NONE, NONE, NONE), None), // direct input
    (24, 0x200, 0x80, (5, NONE, NONE, NONE), Some(Rule::P9)), // function 24
    (37, 0x200, 0x80, (5, NONE, NONE, NONE), Some(Rule::P9)), // function 37
    (19, 0xFFF4, 0x80, (5, NONE, NONE, NONE), None), // read up to 0FFFFH
    (19, 0xFFF5, 0x80, (5, NONE, NONE, NONE), Some(Rule::P10)), // read past 0FFFFH
    (15, 0xFFE0, 0x80, (5, NONE, NONE, NONE), None), // write up to 0FFFFH
    (15, 0xFFE1, 0x80, (5, NONE, NONE, NONE), Some(Rule::P11)), // write past 0FFFFH
    (15, 0xFFF4, 0x80, (5, NONE, NONE, NONE), Some(Rule::P10)), // both past 0FFFFH
    (17, 0x200, 0xFF80, (5, NONE, NONE, NONE), None), // DMA up to 0FFFFH
    (17, 0x200, 0xFF81, (5, NONE, NONE, NONE), Some(Rule::P11)), // DMA written past 0FFFFH
    (21, 0x200, 0xFF81, (5, NONE, NONE, NONE), Some(Rule::P10)), // DMA read past 0FFFFH
    (19, 0x200, 0x80, (5, NONE, 0x20B, NONE), Some(Rule::P10)), // last cell not readable
    (19, 0x200, 0x80, (5, NONE, 0x20C, NONE), None), // next cell not readable
    (36, 0x200, 0x80, (5, NONE, 0x20C, NONE), Some(Rule::P10)), // first cell not readable
    (36, 0x200, 0x80, (5, NONE, 0x20D, NONE), None), // cell between two ranges
    (15, 0x200, 0x80, (5, NONE, NONE, 0x21F), Some(Rule::P11)), // last cell not writable
    (15, 0x200, 0x80, (5, NONE, NONE, 0x220), None), // next cell not writable
    (15, 0x200, 0x80, (5, NONE, 0x20C, 0x200), Some(Rule::P10)), // read before write
    (20, 0x200, 0x80, (5, NONE, NONE, 0xFF), Some(Rule::P11)), // last cell of the second range
    (9, 0x200, 0x80, (5, 0x200, NONE, NONE), None), // $ first
    (9, 0x200, 0x80, (5, 0xFFFF, NONE, NONE), None), // $ in the last cell
    (9, 0x200, 0x80, (5, NONE, NONE, NONE), Some(Rule::P10)), // no $
    (9, 0x200, 0x80, (5, 0x1FF, NONE, NONE), Some(Rule::P10)), // $ before DE
    (9, 0x200, 0x80, (5, 0x205, 0x204, NONE), Some(Rule::P10)), // not readable before $
    (9, 0x200, 0x80, (5, 0x205, 0x205, NONE), Some(Rule::P10)), // $ not readable
    (9, 0x200, 0x80, (5, 0x205, 0x206, NONE), None), // not readable after $
    (10, 0x200, 0x80, (0, NONE, NONE, NONE), Some(Rule::P10)), // mx 0
    (10, 0xFFFF, 0x80, (0, NONE, NONE, NONE), Some(Rule::P10)), // mx 0 at the last cell
    (10, 0x200, 0x80, (5, NONE, 0x200, NONE), Some(Rule::P10)), // mx not readable
    (10, 0xFEFF, 0x80, (255, NONE, NONE, NONE), None), // mx 255 up to 0FFFFH
    (10, 0xFF00, 0x80, (255, NONE, NONE, NONE), Some(Rule::P11)), // mx 255 past 0FFFFH
    (10, 0x200, 0x80, (5, NONE, NONE, 0x206), Some(Rule::P11)), // last byte of the line
    (10, 0x200, 0x80, (5, NONE, NONE, 0x207), None), // after the line
];

/// The rule that a call breaks.
fn rule_of_edge(edge: &Edge) -> Option<Rule> {
    let (function, de, dma, (fill, dollar, closed, locked), _) = *edge;
    let view = Cells {
        fill,
        dollar,
        closed,
        locked,
    };
    let d = (de / 256) as u8;
    let e = (de % 256) as u8;
    shape_of(Some(function), Some(d), Some(e), dma, &view).err()
}

#[test]
fn rules_at_edges(rt: HostRuntime) {
    for edge in &EDGES {
        assert!(rt; rule_of_edge(edge) == edge.4);
    }
}

/// What is in C, D and E, where that is known, and the rule that a call breaks.
type Partly = (Option<u8>, Option<u8>, Option<u8>, Option<Rule>);

static PARTLY_KNOWN: [Partly; 8] = [
    (None, Some(2), Some(0), Some(Rule::P9)),
    (Some(2), None, Some(0), None),
    (Some(2), Some(2), None, Some(Rule::P10)),
    (Some(6), None, Some(0xFF), None),
    (Some(6), Some(2), None, Some(Rule::P10)),
    (Some(26), None, Some(0), Some(Rule::P10)),
    (Some(26), Some(2), None, Some(Rule::P10)),
    (Some(18), None, None, None),
];

// What is not known, and what is not needed.
#[test]
fn registers_that_are_not_known(rt: HostRuntime) {
    let view = filled(5);
    for (function, d, e, rule) in &PARTLY_KNOWN {
        assert!(rt; shape_of(*function, *d, *e, 0x80, &view).err() == *rule);
    }
}

/// Blocks, each an address and its bytes.
type Listed = &'static [(u16, &'static [u8])];

/// Whether blocks are these.
fn are_blocks(blocks: &[Block], want: Listed) -> bool {
    for (block, (at, bytes)) in blocks.iter().zip(want) {
        if block.at != *at || block.bytes.as_slice() != *bytes {
            return false;
        }
    }
    blocks.len() == want.len()
}

/// Whether a function's request has these blocks.
fn has_blocks(alloc: Global, function: u8, want: Listed) -> Result<bool, AllocError> {
    match request(alloc, function, 0, 5)? {
        Some(request) => Ok(are_blocks(request.blocks.as_slice(), want)),
        None => Ok(false),
    }
}

#[rattlefmt::skip]
static BLOCKS: [(u8, Listed); 4] = [
    (1, &[]),
    (9, &[(0x200, &[5; 5])]),
    (23, &[(0x200, &[5, 5, 5, 5, 5, b'$', 5, 5, 5, 5, 5, 5]), (0x210, &[5; 12])]),
    (36, &[(0x20C, &[5]), (0x20E, &[5]), (0x220, &[5])]),
];

#[test]
fn requests_have_their_blocks(rt: HostRuntime) -> Result<(), AllocError> {
    for (function, want) in &BLOCKS {
        assert!(rt; has_blocks(rt.alloc(), *function, *want)?);
    }
    Ok(())
}
