// Sources of the most lines, and faults that stay.
use asm80_text::Lines;
use asm80_types::{LineRule, ReadFault};
use std::test::Fail;

// What stands behind 32,768 lines, and the fault that there is.
const MANY: [(&[u8], Option<ReadFault>); 3] = [
    (b"", None),
    (b"*", Some(ReadFault::Syntax(32_769, LineRule::L8))),
    (b"\n", Some(ReadFault::Syntax(32_769, LineRule::L8))),
];

#[test]
fn sources_have_limits(rt: HostRuntime) -> Result<(), Fail> {
    for (last, want) in MANY {
        let mut lines = Lines::new(rt.alloc())?;
        for _ in 0..32_768 {
            lines.feed(b"\n")?;
        }
        let _ = lines.feed(last);
        assert!(rt; lines.finish().err() == want);
    }
    Ok(())
}

// Pieces of a source, and what each is answered: a fault is told as soon as its line is complete.
const PIECES: [(&[u8], Result<(), ReadFault>); 4] = [
    (b"NOP\nFOO BAR", Ok(())),
    (b"\x1a", Err(ReadFault::Syntax(2, LineRule::L5))),
    (b"A: NOP\n", Err(ReadFault::Syntax(2, LineRule::L5))),
    (b"", Err(ReadFault::Syntax(2, LineRule::L5))),
];

#[test]
fn faults_stay(rt: HostRuntime) -> Result<(), Fail> {
    let mut lines = Lines::new(rt.alloc())?;
    for (piece, want) in PIECES {
        assert!(rt; lines.feed(piece) == want);
    }
    assert!(rt; lines.finish().err() == Some(ReadFault::Syntax(2, LineRule::L5)));
    Ok(())
}
