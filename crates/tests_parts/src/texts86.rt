// When the reader of a text tells a fault.
use asm86::{Text86, TextFault, TextRule};
use std::test::Fail;

#[test]
fn a_fault_is_told_as_soon_as_its_line_is_complete_and_stays(rt: HostRuntime) -> Result<(), Fail> {
    let fault = TextFault::Line(2, TextRule::M2);
    let pieces: [(&[u8], Result<(), TextFault>); 3] = [
        (b"CSEG\nFOO", Ok(())),
        (b"\n", Err(fault)),
        (b"NOP\nEND\n", Err(fault)),
    ];
    let mut reader = Text86::new(rt.alloc())?;
    for (piece, answer) in pieces {
        assert!(rt; reader.feed(piece) == answer);
    }
    assert!(rt; reader.finish().err() == Some(fault));
    Ok(())
}
