// Command files that are cut, changed, of other kinds, and as large as they may be. What is expected is by the CP/M-86 System Guide.
use cmd_file::{CmdFault, CmdFile};
use std::alloc::Global;
use std::test::Fail;

/// How many bytes a file with 48 bytes of code and 256 of data has.
const LENGTH: usize = 432;

/// The places of a header at which such a file has one byte alone: the forms of all groups, and the bases of code and data.
const FIXED: [usize; 12] = [0, 3, 4, 9, 12, 13, 18, 27, 36, 45, 54, 63];

/// The places of the lengths of code and data.
const LENGTHS: [usize; 4] = [1, 2, 10, 11];

fn file() -> [u8; LENGTH] {
    let mut bytes = [0; LENGTH];
    bytes[0] = 1;
    bytes[1] = 3;
    bytes[9] = 2;
    bytes[10] = 16;
    bytes
}

// The place at which bytes are refused, if they are.
fn refused(alloc: Global, bytes: &[u8]) -> Option<u32> {
    match CmdFile::read(alloc, bytes) {
        Ok(_) => None,
        Err(CmdFault::Bad(place)) => Some(place),
        Err(CmdFault::Memory) => Some(u32::MAX),
    }
}

#[test]
fn a_file_that_is_cut_ends_early(rt: HostRuntime) -> Result<(), Fail> {
    let bytes = file();
    for length in 0..LENGTH {
        assert!(rt; refused(rt.alloc(), &bytes[..length]) == Some(length as u32));
    }
    assert!(rt; refused(rt.alloc(), &bytes).is_none());
    Ok(())
}

#[test]
fn less_than_a_record_may_follow(rt: HostRuntime) -> Result<(), Fail> {
    let mut bytes = Vec::from_slice(rt.alloc(), &file())?;
    for count in 0..127 {
        bytes.push(count)?;
        assert!(rt; refused(rt.alloc(), bytes.as_slice()).is_none());
    }
    bytes.push(0)?;
    assert!(rt; refused(rt.alloc(), bytes.as_slice()) == Some(559));
    Ok(())
}

#[test]
fn only_forms_bases_and_lengths_of_a_header_are_looked_at(rt: HostRuntime) -> Result<(), Fail> {
    let right = file();
    for place in 0..128 {
        if LENGTHS.contains(&place) {
            continue;
        }
        for byte in 0..=255 {
            let mut bytes = right;
            bytes[place] = byte;
            let wanted = if FIXED.contains(&place) && byte != right[place] {
                Some(place as u32)
            } else {
                None
            };
            assert!(rt; refused(rt.alloc(), &bytes) == wanted);
        }
    }
    Ok(())
}

#[test]
fn a_length_is_at_most_1000h(rt: HostRuntime) -> Result<(), Fail> {
    for (low, high, refusal) in [(0, 0x10, 432), (1, 0x10, 2), (0, 0x11, 2), (255, 255, 2)] {
        let mut bytes = file();
        bytes[1] = low;
        bytes[2] = high;
        assert!(rt; refused(rt.alloc(), &bytes) == Some(refusal));
    }
    for (low, high, refusal) in [(0, 0x10, 432), (1, 0x10, 11), (0, 0x11, 11), (255, 255, 11)] {
        let mut bytes = file();
        bytes[10] = low;
        bytes[11] = high;
        assert!(rt; refused(rt.alloc(), &bytes) == Some(refusal));
    }
    Ok(())
}

// What pasmo writes by `--cmd`: one group, of code.
#[test]
fn a_file_of_one_group_is_refused_where_the_second_comes(rt: HostRuntime) -> Result<(), Fail> {
    let mut bytes = [0; LENGTH];
    bytes[..9].copy_from_slice(&[1, 0x11, 0, 0, 0, 0x11, 0, 0xFF, 0x0F]);
    assert!(rt; refused(rt.alloc(), &bytes) == Some(9));
    Ok(())
}

#[test]
fn groups_have_up_to_64_kib(rt: HostRuntime) -> Result<(), Fail> {
    let mut bytes = Vec::from_slice(rt.alloc(), &file())?;
    bytes[1] = 0;
    bytes[2] = 0x10;
    bytes[10] = 0;
    bytes[11] = 0x10;
    bytes.resize(128 + 2 * 65_536, 7)?;
    match CmdFile::read(rt.alloc(), bytes.as_slice()) {
        Ok(file) => {
            assert!(rt; file.code_part().len() == 65_536);
            assert!(rt; file.data_part().len() == 65_536);
        }
        Err(_) => assert!(rt; false),
    }
    Ok(())
}
