// States of the 8086 as words, `ax=1122`, `flags=SZ` or `2100=7e`, a place and what stands there.
use crate::words::{push_byte, push_word};
use cpu86::flags::Flags;
use cpu86::initial_memory::start_memory;
use cpu86::memory::Memory;
use cpu86::processor::Processor;
use cpu86::registers::Registers;
use i86::Reg16;
use std::alloc::{AllocError, Global};

const WORD_NAMES: [&str; 10] = [
    " ax=", " cx=", " dx=", " bx=", " sp=", " si=", " ip=", " ds=", " ss=", " dma=",
];

/// A state whose registers differ, over memory of one byte.
pub fn start(alloc: Global) -> Result<Processor, AllocError> {
    let fill = vec![in alloc; 0xA5; 0x1_0000]?;
    Ok(Processor {
        registers: Registers {
            al: 0x22,
            ah: 0x11,
            cl: 0x44,
            ch: 0x33,
            dl: 0x66,
            dh: 0x55,
            bl: 0x00,
            bh: 0x20,
        },
        sp: 0x3000,
        si: 0x2100,
        ip: 0x0102,
        ds: 0x0040,
        ss: 0x0040,
        flags: flags_of("-"),
        memory: start_memory(alloc, fill.as_slice(), &[0xA5; 164], &[])?,
        dma: 0x80,
    })
}

/// A copy of a state.
pub fn copy(alloc: Global, processor: &Processor) -> Result<Processor, AllocError> {
    let bytes = Vec::from_slice(alloc, processor.memory.bytes.as_slice())?;
    Ok(Processor {
        registers: processor.registers,
        memory: Memory { bytes },
        sp: processor.sp,
        si: processor.si,
        ip: processor.ip,
        ds: processor.ds,
        ss: processor.ss,
        flags: processor.flags,
        dma: processor.dma,
    })
}

// The flags whose letters stand there.
fn flags_of(letters: &str) -> Flags {
    Flags {
        sf: letters.contains('S'),
        zf: letters.contains('Z'),
        af: letters.contains('A'),
        pf: letters.contains('P'),
        cf: letters.contains('C'),
    }
}

/// Puts a value into a place of a state. What is no place is let go.
pub fn put(processor: &mut Processor, place: &str, value: &str) {
    if place == "flags" {
        processor.flags = flags_of(value);
    } else if let Ok(word) = u16::from_str_radix(value, 16) {
        put_word(processor, place, word);
    }
}

fn put_word(processor: &mut Processor, place: &str, word: u16) {
    match place {
        "ax" => processor.set16(Reg16::Ax, word),
        "cx" => processor.set16(Reg16::Cx, word),
        "dx" => processor.set16(Reg16::Dx, word),
        "bx" => processor.set16(Reg16::Bx, word),
        "sp" => processor.sp = word,
        "si" => processor.si = word,
        "ip" => processor.ip = word,
        "ds" => processor.ds = word,
        "ss" => processor.ss = word,
        "dma" => processor.dma = word,
        _ => {
            if let Ok(at) = u16::from_str_radix(place, 16) {
                processor.set_byte(at, (word % 256) as u8);
            }
        }
    }
}

fn words_of(processor: &Processor) -> [u16; 10] {
    [
        processor.reg16(Reg16::Ax),
        processor.reg16(Reg16::Cx),
        processor.reg16(Reg16::Dx),
        processor.reg16(Reg16::Bx),
        processor.sp,
        processor.si,
        processor.ip,
        processor.ds,
        processor.ss,
        processor.dma,
    ]
}

/// Adds the places in which a state differs from the one before.
pub fn push_changes(
    text: &mut String,
    before: &Processor,
    after: &Processor,
) -> Result<(), AllocError> {
    push_words(text, &words_of(before), &words_of(after))?;
    if before.flags.flag_byte(0) != after.flags.flag_byte(0) {
        push_flags(text, after.flags)?;
    }
    push_bytes(
        text,
        before.memory.bytes.as_slice(),
        after.memory.bytes.as_slice(),
    )
}

fn push_words(text: &mut String, before: &[u16], after: &[u16]) -> Result<(), AllocError> {
    for (name, (old, new)) in WORD_NAMES.iter().zip(before.iter().zip(after)) {
        if old != new {
            push_word(text, name, *new)?;
        }
    }
    Ok(())
}

fn push_flags(text: &mut String, flags: Flags) -> Result<(), AllocError> {
    text.push_str(" flags=")?;
    if flags.flag_byte(0) == 0 {
        return text.push('-');
    }
    for (is_set, letter) in &[
        (flags.sf, 'S'),
        (flags.zf, 'Z'),
        (flags.af, 'A'),
        (flags.pf, 'P'),
        (flags.cf, 'C'),
    ] {
        if *is_set {
            text.push(*letter)?;
        }
    }
    Ok(())
}

// Adds the cells that differ.
fn push_bytes(text: &mut String, before: &[u8], after: &[u8]) -> Result<(), AllocError> {
    let mut at = 0u16;
    for (old, new) in before.iter().zip(after) {
        if old != new {
            push_word(text, " ", at)?;
            push_byte(text, "=", *new)?;
        }
        at = at.wrapping_add(1);
    }
    Ok(())
}
