// The file copier of the CP/M 2.2 Operating System Manual, section 5.4, over a disk: on either machine, its calls and the disk that
// it leaves.
use host::{Host, MemHost};
use std::alloc::{AllocError, Global};
use std::process::Abort;
use std::test::Fail;
use xlt_app::xlt;

const COPIER: &[u8] = b"BDOS EQU 5\nFCB1 EQU 5CH\nFCB2 EQU 6CH\nORG 100H\n\
    LXI H,FCB2 ; second name\nLXI D,DEST\nMVI B,12\nMOVE: MOV A,M\nSTAX D\nINX H\nINX D\nDCR B\nJNZ MOVE\n\
    XRA A\nSTA DEST+12\nSTA DEST+32\nSTA FCB1+32\n\
    LXI D,FCB1\nMVI C,15\nCALL BDOS\nINR A\nJZ NOFILE\nLXI D,DEST\nMVI C,19\nCALL BDOS\n\
    LXI D,DEST\nMVI C,22\nCALL BDOS\nINR A\nJZ NOFILE\nLXI D,BUF\nMVI C,26\nCALL BDOS\n\
    COPY: LXI D,FCB1\nMVI C,20\nCALL BDOS\nORA A\nJNZ DONE\nLXI D,DEST\nMVI C,21\nCALL BDOS\nORA A\nJZ COPY\n\
    DONE: LXI D,DEST\nMVI C,16\nCALL BDOS\nLXI D,OKMSG\nJMP TELL\nNOFILE: LXI D,NOMSG\nTELL: MVI C,9\nCALL BDOS\nRET\n\
    OKMSG: DB 'Copied',13,10,'$'\nNOMSG: DB 'No file',13,10,'$'\nDEST: DS 33\nBUF: DS 128\nEND\n";

/// A name, the byte that fills its records, and how many records it has.
type File = (&'static [u8], u8, u8);

const GIVEN: [File; 2] = [(b"A       TXT", b'a', 1), (b"Z       TXT", b'z', 2)];

const LEFT: [File; 3] = [
    (b"A       TXT", b'a', 1),
    (b"B       TXT", b'a', 1),
    (b"Z       TXT", b'z', 2),
];

fn list_of(alloc: Global, words: &[&str]) -> Result<Vec<String>, AllocError> {
    let mut list = Vec::new(alloc);
    for word in words {
        list.push(String::from_str(alloc, word)?)?;
    }
    Ok(list)
}

// The disk file of these two or three files.
fn disk_of(alloc: Global, files: &[File]) -> Result<Vec<u8>, AllocError> {
    let mut disk = Vec::from_slice(alloc, b"XLTDISK1")?;
    disk.push(if files.len() == 2 { 2 } else { 3 })?;
    disk.push(0)?;
    for (name, byte, records) in files {
        disk.extend_from_slice(name)?;
        disk.push(*records)?;
        disk.push(0)?;
        for _ in 0..128 * (*records as usize) {
            disk.push(*byte)?;
        }
    }
    Ok(disk)
}

/// A program, its words, how many words of each line are looked at, and these words.
#[derive(Clone, Copy)]
struct Call<'a> {
    file: &'a [u8],
    words: &'a [&'a str],
    count: u32,
    wanted: &'a [u8],
}

// The first words of each line, so many, with a blank behind them.
fn first_words(alloc: Global, said: &[u8], count: u32) -> Result<Vec<u8>, AllocError> {
    let mut words = Vec::new(alloc);
    let mut word: u32 = 1;
    for byte in said {
        if *byte == b'\n' {
            words.push(b' ')?;
            word = 1;
            continue;
        }
        if *byte == b' ' {
            word = word.saturating_add(1);
        }
        if word <= count {
            words.push(*byte)?;
        }
    }
    Ok(words)
}

// The program with these words says lines that begin with these words, and leaves this disk in the file E.
fn assert_copies(rt: &impl Abort, alloc: Global, call: &Call) -> Result<(), Fail> {
    let mut host = MemHost::new(alloc);
    host.put("P", call.file)?;
    host.put("D", &disk_of(alloc, &GIVEN)?)?;
    assert!(rt; xlt(alloc, list_of(alloc, call.words)?, &mut host) == 0);
    assert_left(rt, alloc, call, host.said(), host.file("E"))
}

// What was said begins with the wanted words, and this disk was left.
fn assert_left(
    rt: &impl Abort,
    alloc: Global,
    call: &Call,
    said: &[u8],
    disk: Option<&[u8]>,
) -> Result<(), Fail> {
    let calls = first_words(alloc, said, call.count)?;
    assert!(rt; calls.as_slice() == call.wanted);
    assert_disk(rt, alloc, disk)
}

fn assert_disk(rt: &impl Abort, alloc: Global, disk: Option<&[u8]>) -> Result<(), Fail> {
    let left = disk_of(alloc, &LEFT)?;
    assert!(rt; disk == Some(left.as_slice()));
    Ok(())
}

const OPTIONS: [&str; 6] = ["--disk", "D", "--out-disk", "E", "--tail", "A.TXT B.TXT"];

// The copier on one machine.
fn call_of<'a>(words: &'a [&'a str; 8], file: &'a [u8]) -> Call<'a> {
    Call {
        file,
        words,
        count: 1,
        wanted: b"0f 13 16 1a 14 15 14 10 09 end ended ",
    }
}

#[test]
fn a_file_is_copied_on_the_8080(rt: HostRuntime) -> Result<(), Fail> {
    let [a, b, c, d, e, f] = OPTIONS;
    let words = ["run80", "P", a, b, c, d, e, f];
    assert_copies(&rt, rt.alloc(), &call_of(&words, COPIER))
}

#[test]
fn a_file_is_copied_on_the_8086(rt: HostRuntime) -> Result<(), Fail> {
    let [a, b, c, d, e, f] = OPTIONS;
    let words = ["run86", "P", a, b, c, d, e, f];
    let mut host = MemHost::new(rt.alloc());
    host.put("P", COPIER)?;
    let given = list_of(rt.alloc(), &["translate", "P", "OUT", "--plain"])?;
    assert!(rt; xlt(rt.alloc(), given, &mut host) == 0);
    let text = host.file("OUT").ok_or("a text")?;
    assert_copies(&rt, rt.alloc(), &call_of(&words, text))
}

#[test]
fn a_file_is_copied_on_both_machines(rt: HostRuntime) -> Result<(), Fail> {
    let [a, b, c, d, e, f] = OPTIONS;
    let call = Call {
        file: COPIER,
        words: &["both", "P", a, b, c, d, e, f],
        count: 2,
        wanted: b"80 0f 80 13 80 16 80 1a 80 14 80 15 80 14 80 10 80 09 80 end \
            86 0f 86 13 86 16 86 1a 86 14 86 15 86 14 86 10 86 09 86 end ended after ",
    };
    assert_copies(&rt, rt.alloc(), &call)
}
