// Sources in the lines of the standard input.
use asm80_text::Lines;
use asm80_types::{ReadFault, StatementReader, Stmt80};
use std::alloc::{AllocError, Global};

/// The bytes that a line stands for: `|` is the end of a line of source, `~` is 255 blanks, and `^` and a character a control
/// character.
pub fn bytes_of(alloc: Global, line: &str) -> Result<Vec<u8>, AllocError> {
    let mut bytes = Vec::new(alloc);
    let mut is_control = false;
    for b in line.as_bytes() {
        match *b {
            b if is_control => bytes.push(b ^ 0x40)?,
            b'^' => {}
            b'|' => bytes.push(b'\n')?,
            b'~' => bytes.extend_from_slice(&[b' '; 255])?,
            b => bytes.push(b)?,
        }
        is_control = !is_control && *b == b'^';
    }
    Ok(bytes)
}

/// The statements of a source in Intel's spelling, which is read in two pieces.
pub fn statements_of(alloc: Global, source: &[u8]) -> Result<Vec<Stmt80>, ReadFault> {
    statements_by::<Lines>(alloc, source)
}

/// The same by any reader.
pub fn statements_by<R: StatementReader>(
    alloc: Global,
    source: &[u8],
) -> Result<Vec<Stmt80>, ReadFault> {
    let mut lines = R::new(alloc)?;
    let (front, back) = source.split_at(source.len() / 2);
    lines.feed(front)?;
    lines.feed(back)?;
    lines.finish()
}
