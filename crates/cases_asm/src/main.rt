// Tests of sources and of ASM-86 texts, a case a line. Of the source language: lines, values, programs and each refusal; and the columns
// of the 8080's instructions: bytes, the parts that are read and written, whether a block ends. Of texts: what a line, a text, a text in
// pieces of each size, or the image of a text comes to, and each refusal. Expected answers, in the file `stdout`, are from the manuals and
// this project's own tables, codes of the 8080's instructions from the manual's. The bytes of each form of instruction of the 8086 are those
// that NASM writes, and for other encodings of the same instruction those of the manual's table, which NASM's disassembler reads so.
#![tactic(auto)]

// A line of the standard input that begins with `=` is a heading and stands in the output too; some headings set what the lines below are
// read as. Each other line is a case, answered by one line; `bytes_of` says how a source is written on a line, and `texts/escapes.rt` how
// a text is.

mod addresses;
mod codes;
mod columns;
mod operands;
mod program;
mod source;
mod statements;
mod subject;
mod texts;

use std::io;
use subject::{Reading, Subject, answer};

fn main(rt: HostRuntime) -> io::Result<()> {
    let mut subject = Subject::Sources(Reading::Statements);
    for line in rt.lines(rt.alloc()) {
        let line = line?;
        let said = answer(rt.alloc(), &mut subject, line.as_str())?;
        println!(rt; "{said}")?;
    }
    Ok(())
}
