// HEX files of sources, and what an 8080 that fetches bytes does with the cells of one.
use crate::events::push_event;
use crate::programs::program80;
use crate::scripts::reply;
use asm80_types::Program80;
use dialogue::{Event, Page};
use i80_bytes::{Byte80, HexFault, HexFile, StepBytes, hex_text};
use std::alloc::{AllocError, Global};

/// The top of the area.
const TOP: u16 = 0xF000;

/// The most steps of a run.
const LIMIT: u32 = 1000;

/// The lines of the HEX file of a source; None where the source is faulty.
pub fn file_of(alloc: Global, source: &str) -> Result<Option<String>, AllocError> {
    match program80(alloc, "", source)? {
        Some(program) => Ok(Some(file_text(alloc, &program)?)),
        None => Ok(None),
    }
}

fn file_text(alloc: Global, program: &Program80) -> Result<String, AllocError> {
    let file = hex_text(alloc, program)?;
    let text = String::from_utf8_lossy(alloc, file.as_slice())?;
    let mut told = String::new(alloc);
    for line in text.lines() {
        told.push(' ')?;
        told.push_str(line)?;
    }
    Ok(told)
}

/// What a HEX file does, of which a space parts the lines: what it asks, and how it ends; or the line that fits nowhere. A last `-` says
/// that no LF stands behind the last line.
pub fn run(alloc: Global, file: &str) -> Result<String, AllocError> {
    let (lines, is_unended) = match file.strip_suffix(" -") {
        Some(lines) => (lines, true),
        None => (file, false),
    };
    let mut bytes = Vec::new(alloc);
    for line in lines.split(' ') {
        bytes.extend_from_slice(line.as_bytes())?;
        bytes.push(b'\n')?;
    }
    if is_unended {
        let _ = bytes.pop();
    }
    let mut told = String::new(alloc);
    if bytes.len() > 0x1_0000 {
        told.push_str(" too long")?;
        return Ok(told);
    }
    match HexFile::read(alloc, bytes.as_slice()) {
        Ok(hex) => push_run(alloc, &mut told, &hex)?,
        Err(HexFault::Bad(line)) => write!(told, " refused: line {line}")?,
        Err(HexFault::Memory) => told.push_str(" out of memory")?,
    }
    Ok(told)
}

// Adds what the cells do, over a fill of 76H, which is no encoding, and with choices of 0.
fn push_run(alloc: Global, told: &mut String, hex: &HexFile) -> Result<(), AllocError> {
    let Some(page) = Page::of_tail(b"") else {
        return told.push_str(" no page");
    };
    let fill = vec![in alloc; 0x76u8; 0x1_0000]?;
    let mut machine = Byte80::new(alloc, hex, TOP, &page, fill.as_slice())?;
    for count in 0..LIMIT {
        match machine.step(0) {
            StepBytes::Ran => {}
            StepBytes::Asked => push_talk(alloc, told, &mut machine)?,
            StepBytes::Ended => return write!(told, " ended after {}", count + 1),
            StepBytes::NoInstruction(at) => return write!(told, " no instruction at {at:04X}"),
            StepBytes::OddCall(function) => return write!(told, " odd call {function}"),
        }
    }
    write!(told, " at {:04X}", machine.pc())
}

// Adds what the machine asks, and gives an IN 41H, and all else 0; before it a reply that does not fit, which is to be refused and to change
// nothing.
fn push_talk(alloc: Global, told: &mut String, machine: &mut Byte80) -> Result<(), AllocError> {
    let Some(event) = machine.asked(alloc)? else {
        return Ok(());
    };
    let (answer, unfit) = if matches!(event, Event::In(_)) {
        (0x41, 0x100)
    } else {
        (0, 1)
    };
    push_event(told, Some(&event))?;
    if machine.reply(&reply(alloc, unfit), 0) {
        told.push_str(" took what does not fit")?;
    }
    if !machine.reply(&reply(alloc, answer), 0) {
        told.push_str(" refused")?;
    }
    Ok(())
}
