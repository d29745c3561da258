// What a case asks for, and its answer.

use crate::memory::{Memory, request};
use crate::shown::{bytes_text, disk_text, reply_text};
use anyhow::bail;
use bdos_small::{Answer, Bdos, Disk, DiskFault};
use dialogue::{Page, dma_after};
use std::alloc::{AllocError, Global};

/// Where the cases have their file control block.
const FCB: usize = 0x5C;

/// A small BDOS with the memory of the program that calls it, and the DMA address.
#[derive(Drop)]
pub struct State {
    bdos: Bdos,
    memory: Memory,
    dma: u16,
}

impl State {
    /// A BDOS with an empty disk and no input.
    pub fn new(alloc: Global) -> Result<State, AllocError> {
        Ok(State {
            bdos: Bdos::new(Disk::empty(alloc), Vec::new(alloc)),
            memory: Memory::new(alloc)?,
            dma: 0x80,
        })
    }
}

/// The answer of a case; the empty text where it only sets something.
pub fn answer(alloc: Global, state: &mut State, case: &str) -> anyhow::Result<String> {
    let (kind, text) = case.split_once(' ').unwrap_or((case, ""));
    let words: Vec<&str> = text.split(' ').collect(alloc)?;
    answer_of(alloc, state, kind, words.as_slice())
}

fn answer_of(
    alloc: Global,
    state: &mut State,
    kind: &str,
    words: &[&str],
) -> anyhow::Result<String> {
    match (kind, words) {
        ("empty", [input]) => start(alloc, state, Disk::empty(alloc), *input),
        ("disk", [bytes, input]) => read(alloc, state, *bytes, *input),
        ("fcb", [drive, name, fields]) => put_fcb(alloc, state, *drive, *name, *fields),
        ("second", [name]) => put_name(alloc, state, FCB + 17, *name),
        ("put", [at, bytes]) => put(alloc, state, *at, *bytes),
        ("dma", [at]) => put_dma(alloc, state, *at),
        ("call", [function]) => call(alloc, state, *function, "005C"),
        ("call", [function, de]) => call(alloc, state, *function, *de),
        ("page", [tail]) => page(alloc, *tail),
        ("out", _) => out(alloc, state),
        ("files", _) => Ok(disk_text(alloc, state.bdos.disk())?),
        _ => bail!("no such case: {kind}"),
    }
}

// Adds the bytes of hexadecimal digits, with `*` and a number so often.
fn push_piece(alloc: Global, bytes: &mut Vec<u8>, part: &str) -> anyhow::Result<()> {
    let (piece, count) = part.split_once('*').unwrap_or((part, "1"));
    let count = count.parse::<u32>()?;
    let piece = hex::decode(alloc, piece)?;
    for _ in 0..count {
        bytes.extend_from_slice(piece.as_slice())?;
    }
    Ok(())
}

// Bytes in pieces; `-` is none.
fn bytes_of(alloc: Global, text: &str) -> anyhow::Result<Vec<u8>> {
    let mut bytes = Vec::new(alloc);
    if text != "-" {
        for part in text.split(',') {
            push_piece(alloc, &mut bytes, part)?;
        }
    }
    Ok(bytes)
}

// A new BDOS with a disk and input.
fn start(alloc: Global, state: &mut State, disk: Disk, input: &str) -> anyhow::Result<String> {
    let input = bytes_of(alloc, input)?;
    state.bdos = Bdos::new(disk, input);
    state.dma = 0x80;
    Ok(String::new(alloc))
}

// A new BDOS with the disk of a disk file, or what is wrong with it.
fn read(alloc: Global, state: &mut State, bytes: &str, input: &str) -> anyhow::Result<String> {
    let bytes = bytes_of(alloc, bytes)?;
    match Disk::read(alloc, bytes.as_slice()) {
        Ok(disk) => start(alloc, state, disk, input),
        Err(DiskFault::Bad(place)) => Ok(format!(in alloc; "byte {place}")?),
        Err(DiskFault::Memory) => bail!("out of memory"),
    }
}

// Puts bytes into memory.
fn put(alloc: Global, state: &mut State, at: &str, bytes: &str) -> anyhow::Result<String> {
    let bytes = bytes_of(alloc, bytes)?;
    let at = u16::from_str_radix(at, 16)?;
    state.memory.put(usize::from(at), bytes.as_slice());
    Ok(String::new(alloc))
}

// Sets the DMA address.
fn put_dma(alloc: Global, state: &mut State, at: &str) -> anyhow::Result<String> {
    state.dma = u16::from_str_radix(at, 16)?;
    Ok(String::new(alloc))
}

// The disk's file.
fn out(alloc: Global, state: &State) -> anyhow::Result<String> {
    let bytes = state.bdos.disk().write(alloc)?;
    Ok(bytes_text(alloc, bytes.as_slice())?)
}

// Puts a name into memory; `_` is a blank.
fn put_name(alloc: Global, state: &mut State, at: usize, name: &str) -> anyhow::Result<String> {
    let name: Vec<u8> = name
        .bytes()
        .map(|byte| if byte == b'_' { b' ' } else { byte })
        .collect(alloc)?;
    state.memory.put(at, name.as_slice());
    Ok(String::new(alloc))
}

// Puts a file control block into memory: the drive, the name, and ex, s2, cr and the three bytes of the random record.
fn put_fcb(
    alloc: Global,
    state: &mut State,
    drive: &str,
    name: &str,
    fields: &str,
) -> anyhow::Result<String> {
    let drive = bytes_of(alloc, drive)?;
    let fields = bytes_of(alloc, fields)?;
    let [ex, s2, cr, random @ ..] = fields.as_slice() else {
        bail!("a file control block has more bytes");
    };
    state.memory.put(FCB, &[0; 36]);
    state.memory.put(FCB, drive.as_slice());
    state.memory.put(FCB + 12, &[*ex]);
    state.memory.put(FCB + 14, &[*s2]);
    state.memory.put(FCB + 32, &[*cr]);
    state.memory.put(FCB + 33, random);
    put_name(alloc, state, FCB + 1, name)
}

// The start page of a tail.
fn page(alloc: Global, tail: &str) -> anyhow::Result<String> {
    let tail = bytes_of(alloc, tail)?;
    match Page::of_tail(tail.as_slice()) {
        Some(page) => Ok(bytes_text(alloc, page.bytes())?),
        None => Ok(String::from_str(alloc, "no page")?),
    }
}

// Calls the BDOS with a function, and writes what it replies.
fn call(alloc: Global, state: &mut State, function: &str, de: &str) -> anyhow::Result<String> {
    let function = function.parse::<u8>()?;
    let de = u16::from_str_radix(de, 16)?;
    if function == 0 {
        bail!("function 0 is not asked");
    }
    let Some(request) = request(
        alloc,
        &state.memory,
        function,
        (de / 256) as u8,
        (de % 256) as u8,
        state.dma,
    )?
    else {
        return Ok(String::from_str(alloc, "no shape")?);
    };
    if request.shape.function == 0 {
        bail!("function 0 is not asked");
    }
    let answer = state.bdos.answer(alloc, &request)?;
    state.dma = dma_after(&request, state.dma);
    if let Answer::Reply(reply) = &answer {
        state.memory.put_blocks(reply.writes.as_slice());
    }
    Ok(reply_text(alloc, &answer)?)
}
