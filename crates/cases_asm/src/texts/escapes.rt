// The bytes that a case of a text stands for.
use std::alloc::{AllocError, Global};

/// The bytes of a case: `\n`, `\r` and `\t` are LF, CR and tab, `\x1A` the byte 1AH, and `A|3|B|C` is A, three times B, and C.
pub fn bytes_of(alloc: Global, case: &str) -> Result<Vec<u8>, AllocError> {
    let (front, others) = case.split_once('|').unwrap_or((case, ""));
    let (count, others) = others.split_once('|').unwrap_or(("0", ""));
    let (piece, back) = others.split_once('|').unwrap_or((others, ""));
    let mut bytes = Vec::new(alloc);
    push_text(&mut bytes, front)?;
    for _ in 0..count.parse::<u32>().unwrap_or(0) {
        push_text(&mut bytes, piece)?;
    }
    push_text(&mut bytes, back)?;
    Ok(bytes)
}

fn push_text(bytes: &mut Vec<u8>, text: &str) -> Result<(), AllocError> {
    let mut is_escape = false;
    for part in text.split('\\') {
        if is_escape {
            push_escape(bytes, part.as_bytes())?;
        } else {
            bytes.extend_from_slice(part.as_bytes())?;
        }
        is_escape = true;
    }
    Ok(())
}

// Adds the byte of what stands behind a backslash, and the rest.
fn push_escape(bytes: &mut Vec<u8>, text: &[u8]) -> Result<(), AllocError> {
    let (byte, rest) = match text {
        [b'n', rest @ ..] => (b'\n', rest),
        [b'r', rest @ ..] => (b'\r', rest),
        [b't', rest @ ..] => (b'\t', rest),
        [b'x', high, low, rest @ ..] => (digit(*high) << 4 | digit(*low), rest),
        _ => (b'\\', text),
    };
    bytes.push(byte)?;
    bytes.extend_from_slice(rest)
}

// What a hexadecimal digit counts.
fn digit(letter: u8) -> u8 {
    if letter < b'A' {
        letter & 0x0F
    } else {
        (letter & 0x0F) + 9
    }
}
