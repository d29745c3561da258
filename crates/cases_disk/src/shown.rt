// Answers as text.
use bdos_small::{Answer, Disk, File};
use dialogue::{Block, Reply};
use std::alloc::{AllocError, Global};

/// Bytes in hexadecimal digits; `e5*96` is 96 bytes 0E5H, from four of them on.
pub fn bytes_text(alloc: Global, bytes: &[u8]) -> Result<String, AllocError> {
    let mut text = String::new(alloc);
    let mut rest = bytes;
    for _ in 0..bytes.len() {
        let Some((byte, others)) = rest.split_first() else {
            break;
        };
        let run = run_of(rest, *byte);
        if run < 4 {
            write!(text, "{byte:02x}")?;
            rest = others;
        } else {
            write!(text, ",{byte:02x}*{run},")?;
            rest = &rest[run.min(rest.len())..];
        }
    }
    Ok(text)
}

// How many bytes in front are this one.
fn run_of(bytes: &[u8], byte: u8) -> usize {
    for (count, other) in bytes.iter().enumerate() {
        if *other != byte {
            return count;
        }
    }
    bytes.len()
}

/// What a call is answered: the answer, and what it writes where.
pub fn reply_text(alloc: Global, answer: &Answer) -> Result<String, AllocError> {
    match answer {
        Answer::Reply(reply) => writes_text(alloc, reply),
        Answer::InputEnded => String::from_str(alloc, "input ended"),
        Answer::NoDrive => String::from_str(alloc, "no drive"),
    }
}

fn writes_text(alloc: Global, reply: &Reply) -> Result<String, AllocError> {
    let answer = reply.answer;
    let mut text = format!(in alloc; "{answer}")?;
    for block in reply.writes.as_slice() {
        push_block(alloc, &mut text, block)?;
    }
    Ok(text)
}

fn push_block(alloc: Global, text: &mut String, block: &Block) -> Result<(), AllocError> {
    let at = block.at;
    let bytes = bytes_text(alloc, block.bytes.as_slice())?;
    write!(text, " {at:04x}:{bytes}")
}

/// How many files and records a disk has, and its files, each with the number of its records.
pub fn disk_text(alloc: Global, disk: &Disk) -> Result<String, AllocError> {
    let files = disk.files().len();
    let records = disk.record_count();
    let mut text = format!(in alloc; "{files}/{records}")?;
    for file in disk.files() {
        push_file(alloc, &mut text, file)?;
    }
    Ok(text)
}

fn push_file(alloc: Global, text: &mut String, file: &File) -> Result<(), AllocError> {
    let count = file.records().len();
    let name = hex::encode(alloc, file.name().bytes())?;
    write!(text, " {name}:{count}")
}
