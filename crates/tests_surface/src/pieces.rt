// Sources and texts that come in pieces, cut at every place of a line: the program says and writes the same.
use crate::sparing::Sparing;
use host::{Host, MemHost};
use std::alloc::{AllocError, Global};
use std::process::Abort;
use std::test::Fail;
use xlt_app::xlt;

/// How many bytes a piece has, from a host that gives as many as it may.
const PIECE: usize = 4096;

// A program that prints A, with the argument as a string and as a number.
const SOURCES: [(&[u8], &[u8], &[u8]); 2] = [
    (
        b"ORG 100H\r\nMVI C,2\r\n",
        b"MVI E,'A'\r\n",
        b"CALL 5\r\nJMP 0\r\nEND\r\n",
    ),
    (
        b"ORG 100H\r\nMVI C,2\r\n",
        b"MVI E,0041H\r\n",
        b"CALL 5\r\nJMP 0\r\n",
    ),
];

// A text that prints A and ends.
const TEXT: (&[u8], &[u8], &[u8]) = (
    b"CSEG\r\nMOV AX,DS\r\nMOV SS,AX\r\nMOV CL,2\r\n",
    b"\tMOV\tDL,041H\r\n",
    b"INT 224\r\nMOV CL,0\r\nMOV DL,0\r\nINT 224\r\nEND\r\n",
);

// So many bytes of comments, in lines of up to 128.
fn push_comments(file: &mut Vec<u8>, count: usize) -> Result<(), AllocError> {
    for at in 0..count {
        let is_last = at % 128 == 127 || at + 1 == count;
        file.push(if is_last { b'\n' } else { b';' })?;
    }
    Ok(())
}

// A file of three parts, of which the second has so many bytes in the first piece.
fn cut_file(
    alloc: Global,
    parts: &(&[u8], &[u8], &[u8]),
    cut: usize,
) -> Result<Vec<u8>, AllocError> {
    let (before, line, after) = parts;
    let mut file = Vec::from_slice(alloc, before)?;
    let room = PIECE.saturating_sub(file.len()).saturating_sub(cut);
    push_comments(&mut file, room)?;
    file.extend_from_slice(line)?;
    file.extend_from_slice(after)?;
    Ok(file)
}

/// The words of a text, parted by blanks.
pub fn words_of(alloc: Global, text: &str) -> Result<Vec<String>, AllocError> {
    let mut words = Vec::new(alloc);
    for word in text.split_whitespace() {
        words.push(String::from_str(alloc, word)?)?;
    }
    Ok(words)
}

/// Whether the program with these words comes to status 0.
pub fn is_done<H: Host>(alloc: Global, words: &str, host: &mut H) -> Result<bool, AllocError> {
    Ok(xlt(alloc, words_of(alloc, words)?, host) == 0)
}

// The program with these words over a host with the file P, and over the same host that gives one byte at a time, says this.
fn expect_said(
    rt: &impl Abort,
    alloc: Global,
    words: &str,
    file: &[u8],
    said: &[u8],
) -> Result<(), Fail> {
    let mut host = MemHost::new(alloc);
    host.put("P", file)?;
    assert!(rt; is_done(alloc, words, &mut host)?);
    assert!(rt; host.said() == said);
    expect_said_by_bytes(rt, alloc, words, file, said)
}

fn expect_said_by_bytes(
    rt: &impl Abort,
    alloc: Global,
    words: &str,
    file: &[u8],
    said: &[u8],
) -> Result<(), Fail> {
    let mut host = Sparing {
        host: MemHost::new(alloc),
    };
    host.host.put("P", file)?;
    assert!(rt; is_done(alloc, words, &mut host)?);
    assert!(rt; host.host.said() == said);
    Ok(())
}

#[test]
fn sources_are_cut(rt: HostRuntime) -> Result<(), Fail> {
    for parts in &SOURCES {
        for cut in 0..14 {
            let file = cut_file(rt.alloc(), parts, cut)?;
            expect_said(
                &rt,
                rt.alloc(),
                "run80 P",
                &file,
                b"02 41\nend\nended after 4 instructions\n",
            )?;
        }
    }
    Ok(())
}

#[test]
fn texts_are_cut(rt: HostRuntime) -> Result<(), Fail> {
    for cut in 0..15 {
        let file = cut_file(rt.alloc(), &TEXT, cut)?;
        expect_said(
            &rt,
            rt.alloc(),
            "run86 P",
            &file,
            b"02 41\nend\nended after 8 instructions\n",
        )?;
    }
    Ok(())
}

// A source of 253 instructions, each of which has 22 bytes of text.
fn long_source(alloc: Global) -> Result<Vec<u8>, AllocError> {
    let mut file = Vec::from_slice(alloc, b"ORG 100H\n")?;
    for _ in 0..253 {
        file.extend_from_slice(b"MVI E,41H\n")?;
    }
    Ok(file)
}

const TRANSLATION: &str = "translate P OUT --plain";

// The text that is written byte by byte is the one that is written in pieces.
#[test]
fn texts_are_written_by_bytes(rt: HostRuntime) -> Result<(), Fail> {
    let file = long_source(rt.alloc())?;
    expect_one_text(&rt, rt.alloc(), &file)
}

fn expect_one_text(rt: &impl Abort, alloc: Global, file: &[u8]) -> Result<(), Fail> {
    let mut host = MemHost::new(alloc);
    host.put("P", file)?;
    assert!(rt; is_done(alloc, TRANSLATION, &mut host)?);
    let text = host.file("OUT").ok_or("a text")?;
    assert!(rt; text.len() == 5837);
    expect_written_by_bytes(rt, alloc, file, text)
}

fn expect_written_by_bytes(
    rt: &impl Abort,
    alloc: Global,
    file: &[u8],
    text: &[u8],
) -> Result<(), Fail> {
    let mut host = Sparing {
        host: MemHost::new(alloc),
    };
    host.host.put("P", file)?;
    assert!(rt; is_done(alloc, TRANSLATION, &mut host)?);
    assert!(rt; host.host.file("OUT") == Some(text));
    Ok(())
}
