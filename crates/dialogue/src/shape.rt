// What a call asks for: its shape, or the rule that it breaks; and its request.
ghost use Rattle.std.specs.Prelude.{◌≡◌, ◌<◌, ◌≤◌, ◌+◌, ◌-◌, Some, [], ◌∷◌, ◌++◌, map, IfSome, IfOk, IsTrue};
ghost use Rattle.std.specs.List.{list_all};
ghost use Rattle.dialogue.specs.Shape.{seen_by_view, argument_of, argument_address, text_length, range_of, line_room, all_cells, shape_of, ranges, block_seen, request_of};
ghost use Rattle.dialogue.specs.Places.{passes, rule_of, has_cells, HaveCells, in_memory, place_within, places_within, room_at, shape_by_places};
ghost use Rattle.dialogue.specs.Lawful.{IsShapeOver, IsLawfulRequest};

use crate::blocks::{Block, Blocks, Bytes};
use crate::request::{ArgWord, Range, Request, Shape, View};
use crate::table::{Argument, Extent, Row, row_of};
use crate::words::join;
use cells::Rule;
use std::alloc::{AllocError, Global};

/// The shape of a call with `function` in C and `d` and `e` in D and E, where they are known, or the rule that it breaks:
/// P9 the function, P10 the argument or what is read, P11 what may be written.
pub fn shape_of<V: View>(
    function: Option<u8>,
    d: Option<u8>,
    e: Option<u8>,
    dma: u16,
    view: &V,
) -> Result<Shape, Rule>
    ensures { result ≡ shape_of function d e dma (seen_by_view (V.byte_at view.now) (V.is_writable view.now)) }
{
    let Some(function) = function else {
        return Err(Rule::P9);
    };
    match row_of(function) {
        Some(row) => shape_by(function, &row, d, e, dma, view),
        None => Err(Rule::P9),
    }
}

/// The request of a shape that was given over the same view: a block for each range that it reads, in order.
pub fn request_of<V: View>(alloc: Global, shape: Shape, view: &V) -> Result<Request, AllocError>
    requires { IsShapeOver (seen_by_view (V.byte_at view.now) (V.is_writable view.now)) shape }
    ensures request { IfOk result (λ r. r ≡ request_of shape (seen_by_view (V.byte_at view.now) (V.is_writable view.now))) }
    ensures lawful { IfOk result (λ r. IsLawfulRequest r) }
{
    let mut blocks = Vec::new(alloc);
    for place in shape.reads {
        push_block(alloc, &mut blocks, place, view)?;
    }
    Ok(Request {
        shape,
        blocks: Blocks::from_vec(blocks),
    })
}

/// Adds the block of a range, if there is one.
fn push_block<V: View>(
    alloc: Global,
    blocks: &mut Vec<Block>,
    place: Option<Range>,
    view: &V,
) -> Result<(), AllocError>
    requires { IfSome place (λ r. r.at + r.len ≤ 0x10000) }
    ensures { IfOk result (λ _. blocks.new.items ≡ blocks.old.items ++ map (block_seen (seen_by_view (V.byte_at view.now) (V.is_writable view.now))) (ranges (place ∷ []))) }
{
    if let Some(range) = place {
        blocks.push(block_of(alloc, range, view)?)?;
    }
    Ok(())
}

/// The cells of a range, as a block.
fn block_of<V: View>(alloc: Global, range: Range, view: &V) -> Result<Block, AllocError>
    requires { range.at + range.len ≤ 0x10000 }
    ensures { IfOk result (λ b. b ≡ block_seen (seen_by_view (V.byte_at view.now) (V.is_writable view.now)) range) }
{
    let mut bytes = Vec::new(alloc);
    for k in 0..range.len {
        bytes.push(view.byte(range.at + k).unwrap_or(0))?;
    }
    Ok(Block {
        at: range.at,
        bytes: Bytes::from_vec(bytes),
    })
}

/// What a call does with the cells of a range.
#[derive(Clone, Copy)]
enum Access {
    Read,
    Write,
}

impl Access {
    /// The rule that a range breaks where this access is not had.
    fn rule(self) -> Rule
        ensures { result ≡ rule_of self }
    {
        match self {
            Access::Read => Rule::P10,
            Access::Write => Rule::P11,
        }
    }

    /// Whether a view gives a cell to this access.
    fn has<V: View>(self, view: &V, at: u16) -> bool
        ensures { result ≡ passes self (seen_by_view (V.byte_at view.now) (V.is_writable view.now)) at }
    {
        match self {
            Access::Read => view.byte(at).is_some(),
            Access::Write => view.writable(at),
        }
    }
}

/// The shape of a call of a row.
fn shape_by<V: View>(
    function: u8,
    row: &Row,
    d: Option<u8>,
    e: Option<u8>,
    dma: u16,
    view: &V,
) -> Result<Shape, Rule>
    requires { HaveCells row.now }
    ensures { result ≡ shape_by_places function row.now d e dma (seen_by_view (V.byte_at view.now) (V.is_writable view.now)) }
{
    let arg = argument_of(row.argument, d, e)?;
    let de = address_of(arg);
    let reads = places_within(Access::Read, &row.reads, de, dma, view)?;
    if !has_room(row.writes, de, view) {
        return Err(Rule::P10);
    }
    let writes = places_within(Access::Write, &row.writes, de, dma, view)?;
    Ok(Shape {
        function,
        arg,
        reads,
        writes,
    })
}

/// The argument, from D and E.
fn argument_of(argument: Argument, d: Option<u8>, e: Option<u8>) -> Result<ArgWord, Rule>
    ensures { result ≡ argument_of argument d e }
{
    match (argument, d, e) {
        (Argument::NoArgument, _, _) => Ok(ArgWord::None),
        (Argument::InE, _, Some(e)) => Ok(ArgWord::Byte(e)),
        (Argument::DirectInE, _, Some(e)) if e != 0xFE => Ok(ArgWord::Byte(e)),
        (Argument::InDE, Some(d), Some(e)) => Ok(ArgWord::Word(join(d, e))),
        _ => Err(Rule::P10),
    }
}

/// The word in DE, from which the table counts its ranges; 0 where the argument is none.
pub(crate) fn address_of(arg: ArgWord) -> u16
    ensures { result ≡ argument_address arg }
{
    match arg {
        ArgWord::Word(word) => word,
        ArgWord::None | ArgWord::Byte(_) => 0,
    }
}

/// The ranges of extents, each in the place of its extent, where all give this access.
fn places_within<V: View, const N: usize>(
    access: Access,
    extents: &[Option<Extent>; N],
    de: u16,
    dma: u16,
    view: &V,
) -> Result<[Option<Range>; N], Rule>
    requires { IsTrue (list_all has_cells extents.now) }
    ensures { result ≡ places_within access (seen_by_view (V.byte_at view.now) (V.is_writable view.now)) de dma extents.now }
{
    let mut places = [None; N];
    for k in 0..N {
        places[k] = place_within(access, extents[k], de, dma, view)?;
    }
    Ok(places)
}

/// The range of an extent, if there is one.
fn place_within<V: View>(
    access: Access,
    extent: Option<Extent>,
    de: u16,
    dma: u16,
    view: &V,
) -> Result<Option<Range>, Rule>
    requires { IsTrue (has_cells extent) }
    ensures { result ≡ place_within access (seen_by_view (V.byte_at view.now) (V.is_writable view.now)) de dma extent }
{
    let Some(extent) = extent else {
        return Ok(None);
    };
    match range_of(extent, de, dma, view) {
        Some(range) if all_cells(access, range, view) => Ok(Some(range)),
        _ => Err(access.rule()),
    }
}

/// The range of an extent, unless it passes 0FFFFH or a text has no end.
fn range_of<V: View>(extent: Extent, de: u16, dma: u16, view: &V) -> Option<Range>
    requires { IsTrue (has_cells (Some extent)) }
    ensures { result ≡ in_memory (range_of (seen_by_view (V.byte_at view.now) (V.is_writable view.now)) de dma extent) }
{
    match extent {
        Extent::F(offset, len) => range_from(de, offset, len),
        Extent::Dma => range_from(dma, 0, 128),
        Extent::Text => Some(Range {
            at: de,
            len: text_length(de, view)?,
        }),
        Extent::Line => range_from(de, 1, u16::from(line_room(de, view)) + 1),
    }
}

/// The `len` cells from `base + offset` up, unless they pass 0FFFFH.
fn range_from(base: u16, offset: u16, len: u16) -> Option<Range>
    requires { 0 < len }
    ensures { result ≡ in_memory (Some (record { at = base + offset; len = len })) }
{
    if u32::from(base) + u32::from(offset) + u32::from(len) <= 0x1_0000 {
        Some(Range {
            at: base + offset,
            len,
        })
    } else {
        None
    }
}

/// The number of cells from DE up before the first `$`, if they can be read and there is one.
fn text_length<V: View>(de: u16, view: &V) -> Option<u16>
    ensures count { result ≡ text_length (seen_by_view (V.byte_at view.now) (V.is_writable view.now)) (0x10000 - de) de }
    ensures bound { IfSome result (λ n. de + n < 0x10000) }
{
    for at in u32::from(de)..0x1_0000 {
        let at = at as u16;
        let byte = view.byte(at)?;
        if byte == b'$' {
            return Some(at - de);
        }
    }
    None
}

/// How many bytes a line may have, by the first byte of its buffer; 0 where that cannot be read.
fn line_room<V: View>(de: u16, view: &V) -> u8
    ensures { result ≡ line_room (seen_by_view (V.byte_at view.now) (V.is_writable view.now)) de }
{
    view.byte(de).unwrap_or(0)
}

/// Whether a call that writes a line has room for a byte.
fn has_room<V: View>(writes: [Option<Extent>; 2], de: u16, view: &V) -> bool
    ensures { result ≡ room_at (seen_by_view (V.byte_at view.now) (V.is_writable view.now)) de writes }
{
    match writes[0] {
        Some(Extent::Line) => line_room(de, view) != 0,
        _ => true,
    }
}

/// Whether a view gives each cell of a range.
fn all_cells<V: View>(access: Access, range: Range, view: &V) -> bool
    requires { range.at + range.len ≤ 0x10000 }
    ensures { result ≡ all_cells (passes access (seen_by_view (V.byte_at view.now) (V.is_writable view.now))) range.len range.at }
{
    for k in 0..range.len {
        if !access.has(view, range.at + k) {
            return false;
        }
    }
    true
}
