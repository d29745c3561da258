// The lines of a source as comments in its text, of sources that no line of text can show: comments with every byte that one may have, a
// last line without a line feed, and what stands after the byte 1AH.
use crate::pieces::is_done;
use host::MemHost;
use std::alloc::{AllocError, Global};
use std::process::Abort;
use std::test::Fail;

// The text of the program whose one instruction is a RET at 100H, before its label and from the runtime on.
const OPENING: &[u8] =
    b"\tCSEG\r\n\tMOV\tSI,0F000H\r\n\tMOV\tWORD PTR .00006H,SI\r\n\tMOV\tAX,DS\r\n\tMOV\tSS,AX\r\n\tMOV\tSP,SI\r\n\tMOV\tSI,OFFSET X_END\r\n\tPUSH\tSI\r\n";

const RETURN: &[u8] = b"L0100:\r\n\tRET\r\n";

const ENDING: &[u8] =
    b"X_SYS:\r\n\tOR\tCL,CL\r\n\tJZ\tX_END\r\n\tINT\t224\r\n\tMOV\tBL,AL\r\n\tMOV\tCH,BH\r\n\tRET\r\nX_END:\r\n\tMOV\tCL,000H\r\n\tMOV\tDL,000H\r\n\tINT\t224\r\n\tDSEG\r\n\tORG\t0EFFFH\r\n\tRB\t00001H\r\n\tEND\r\n";

// Sources of that program, and the comments before its label and before the runtime.
const SOURCES: [(&[u8], &[u8], &[u8]); 4] = [
    (b"ORG 100H\nRET", b";ORG 100H\r\n;RET\r\n", b""),
    (
        b"ORG 100H\r\nRET\r\n\r\nEND",
        b";ORG 100H\r\n;RET\r\n",
        b"\r\n;END\r\n",
    ),
    (b"ORG 100H\nRET\n\x1aEND\n", b";ORG 100H\r\n;RET\r\n", b""),
    (
        b"ORG 100H\nRET\n;\r\r\n;\r\x1a",
        b";ORG 100H\r\n;RET\r\n",
        b";;\r\r\n;;\r\r\n",
    ),
];

// The source has the text with these comments, which is shown by `check`.
fn expect_text(
    rt: &impl Abort,
    alloc: Global,
    source: &[u8],
    before: &[u8],
    after: &[u8],
) -> Result<(), Fail> {
    let mut text = Vec::from_slice(alloc, OPENING)?;
    for part in [before, RETURN, after, ENDING] {
        text.extend_from_slice(part)?;
    }
    expect_whole_text(rt, alloc, source, &text)
}

fn expect_whole_text(
    rt: &impl Abort,
    alloc: Global,
    source: &[u8],
    text: &[u8],
) -> Result<(), Fail> {
    let mut host = MemHost::new(alloc);
    host.put("P", source)?;
    assert!(rt; is_done(alloc, "translate P OUT --comments", &mut host)?);
    assert!(rt; host.file("OUT") == Some(text));
    assert!(rt; is_done(alloc, "check P OUT", &mut host)?);
    Ok(())
}

#[test]
fn ends_of_sources(rt: HostRuntime) -> Result<(), Fail> {
    for (source, before, after) in SOURCES {
        expect_text(&rt, rt.alloc(), source, before, after)?;
    }
    Ok(())
}

// A line with a comment of these bytes, but the three that would end it.
fn push_comment(file: &mut Vec<u8>, bytes: &[u8]) -> Result<(), AllocError> {
    file.push(b';')?;
    for byte in bytes {
        if *byte != b'\n' && *byte != b'!' && *byte != 0x1a {
            file.push(*byte)?;
        }
    }
    Ok(())
}

#[test]
fn comments_of_all_bytes(rt: HostRuntime) -> Result<(), Fail> {
    let alloc = rt.alloc();
    let mut source = Vec::from_slice(alloc, b"ORG 100H\n")?;
    let mut before = Vec::from_slice(alloc, b";ORG 100H\r\n")?;
    let bytes: [u8; 256] = std::array::from_fn(|at| at as u8);
    for half in [&bytes[..128], &bytes[128..]] {
        push_comment(&mut source, half)?;
        source.push(b'\n')?;
        before.push(b';')?;
        push_comment(&mut before, half)?;
        before.extend_from_slice(b"\r\n")?;
    }
    source.extend_from_slice(b"RET\n")?;
    before.extend_from_slice(b";RET\r\n")?;
    expect_text(&rt, alloc, source.as_slice(), before.as_slice(), b"")
}
