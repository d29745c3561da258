// Bytes that are read as instructions, and bytes that are none.
use i86::Instr86::{Add16, Lahf, OutAl};
use i86::Reg16::{Bx, Dx};
use i86::{code_has_one_reader, decode, decode_at, encodings_are_prefix_free};

// What NASM 2.16.01 writes for instructions of which the manual's table has two encodings, and this subset the other one.
#[rattlefmt::skip]
static OTHER_ENCODINGS: [&[u8]; 29] = [
    &[0x88, 0xF8], &[0x88, 0xF1], &[0x88, 0xEA], &[0x88, 0xE3], &[0x88, 0xDC], &[0x88, 0xD5], &[0x88, 0xCE], &[0x88, 0xC7],
    &[0x89, 0xF0], &[0x89, 0xE1], &[0x89, 0xDA], &[0x89, 0xD3], &[0x89, 0xCC], &[0x89, 0xC6], &[0xA1, 0x34, 0x12],
    &[0xA3, 0x34, 0x12], &[0x00, 0xC0], &[0x08, 0xC8], &[0x10, 0xD0], &[0x18, 0xD8], &[0x20, 0xE0], &[0x28, 0xE8],
    &[0x30, 0xF0], &[0x38, 0xF8], &[0x08, 0xC9], &[0x01, 0xD3], &[0x01, 0xDB], &[0x01, 0xF0], &[0x96],
];

// Bytes that are no instruction, or that end within one.
#[rattlefmt::skip]
static NONE: [&[u8]; 12] = [
    &[], &[0xB1], &[0x0F], &[0x54], &[0x5C], &[0x82, 0xC0, 0x01], &[0x8B, 0x06, 0x34], &[0xCD, 0x21], &[0xE4], &[0xE6],
    &[0xE5, 0x10], &[0xEC],
];

/// Whether none of these is read as an instruction.
fn are_none(encodings: &[&[u8]]) -> bool {
    for bytes in encodings {
        if decode(bytes) != None {
            return false;
        }
    }
    true
}

#[test]
fn other_encodings(rt: HostRuntime) {
    assert!(rt; are_none(&OTHER_ENCODINGS) && are_none(&NONE));
}

#[test]
fn decoding(rt: HostRuntime) {
    let code = [0x9F, 0x03, 0xDA, 0xD1, 0xDE, 0x9E, 0xD1];
    let found = [
        decode(&[0x9F, 0x43]),
        decode(&[0xE6, 0x11]),
        decode_at(&code, 1),
        decode_at(&code, 6),
        decode_at(&code, 7),
    ];
    assert!(rt;
        found
            == [
                Some((Lahf, 1)),
                Some((OutAl(17), 2)),
                Some((Add16(Bx, Dx), 2)),
                None,
                None
            ]
    );
    code_has_one_reader();
    encodings_are_prefix_free();
}
