// ASM-86 texts: `templates`, `asm86` and `xlt_core`.
use crate::source::{SOURCE, program, program_of};
use asm86::{
    Image86, ImageFault, Jump, Label, Line86, Stmt86, Text86, TextFault, TextRule, Value16, image,
    write_line,
};
use cells::Part;
use i80::{Goal, Instr80};
use i86::{Instr86, Reg16};
use std::alloc::{AllocError, Global};
use std::test::Fail;
use sym_block_def::Reason;
use templates::{Sequence, plain_text, prologue, runtime, template};
use xlt_core::{Finding, validate};

// The plain text of the program, as it is written.
fn written(alloc: Global) -> Result<Vec<u8>, Fail> {
    let lines: Vec<Line86> = plain_text(alloc, &program(alloc)?)?;
    let mut text = Vec::new(alloc);
    for line in &lines {
        text.extend_from_slice(write_line(line.stmt).as_slice())?;
    }
    Ok(text)
}

/// Reads a text and makes its image.
pub fn image_of(alloc: Global, text: &[u8]) -> Result<Image86, ImageFault> {
    let mut reader = match Text86::new(alloc) {
        Ok(reader) => reader,
        Err(_) => return Err(ImageFault::Memory),
    };
    let _ = reader.feed(text);
    match reader.finish() {
        Ok(lines) => image(alloc, lines.as_slice()),
        Err(TextFault::Line(line, rule)) => Err(ImageFault::Line(line, rule)),
        Err(TextFault::Memory) => Err(ImageFault::Memory),
    }
}

/// The image of that text.
pub fn written_image(alloc: Global) -> Result<Image86, Fail> {
    let text = written(alloc)?;
    match image_of(alloc, text.as_slice()) {
        Ok(image) => Ok(image),
        Err(_) => Err("an image")?,
    }
}

#[test]
fn statements_of_an_instruction(rt: HostRuntime) {
    let call: Sequence = template(Instr80::Call(Goal::Bdos), 0x104, false);
    assert!(rt; call.as_slice() == [Stmt86::Call(Label::Sys)].as_slice());
    // The text begins with the top of the area, and calls of the system go through the runtime.
    let begin = prologue(0xF000);
    assert!(rt;
        begin
            .as_slice()
            .contains(&Stmt86::Run(Instr86::MovNum16(Reg16::Si, 0xF000)))
    );
    assert!(rt;
        runtime()
            .as_slice()
            .contains(&Stmt86::Jcc(Jump::Jz, Label::End))
    );
}

#[test]
fn a_written_text_has_an_image(rt: HostRuntime) -> Result<(), Fail> {
    let image = written_image(rt.alloc())?;
    // MOV SI,0F000H.
    assert!(rt; image.code().starts_with(&[0xBE, 0x00, 0xF0]) && image.code().len() == 44);
    assert!(rt; image.cells().first().copied() == Some((0x10A, 0x42)));
    assert!(rt; image.offset(Label::At(0x100)) == Some(17));
    assert!(rt; image.offset(Label::User(1)).is_none());
    Ok(())
}

// What is found of the written text, as the text of a source; None where it has no image.
fn finding_of(alloc: Global, source: &[u8]) -> Result<Option<Finding>, Fail> {
    let program = program_of(alloc, source)?;
    let text = written(alloc)?;
    let mut reader = Text86::new(alloc)?;
    let _ = reader.feed(text.as_slice());
    let Ok(lines) = reader.finish() else {
        return Ok(None);
    };
    match image(alloc, lines.as_slice()) {
        Ok(_) => Ok(Some(validate(alloc, &program, lines.as_slice())?)),
        Err(_) => Ok(None),
    }
}

#[test]
fn a_written_text_is_validated(rt: HostRuntime) -> Result<(), Fail> {
    let alloc = rt.alloc();
    // The blocks at 100H and 107H.
    assert!(rt; finding_of(alloc, SOURCE)? == Some(Finding::Shown(2)));
    let prints_b = b"ORG 100H\nMVI C,2\nMVI E,'B'\nCALL 5\nJMP 0\nLAST: DB 'A'+1,'TWO'\nEND\n";
    let differs = Finding::NotShown(0x100, Reason::Kept(Part::E));
    assert!(rt; finding_of(alloc, prints_b)? == Some(differs));
    Ok(())
}

#[test]
fn faults_of_texts(rt: HostRuntime) -> Result<(), AllocError> {
    let alloc = rt.alloc();
    let mut reader = Text86::new(alloc)?;
    assert!(rt; reader.feed(b"CSEG\nFOO\n") == Err(TextFault::Line(2, TextRule::M2)));
    let undefined = image_of(alloc, b"CSEG\nJMP L0100\nEND\n").err();
    assert!(rt; undefined == Some(ImageFault::Line(2, TextRule::M4)));
    let word = write_line(Stmt86::Dw(Value16::Num(1)));
    assert!(rt; word.as_slice().ends_with(b"\r\n"));
    Ok(())
}
