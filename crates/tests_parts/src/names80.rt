// The most names of a source.
use asm80_text::Lines;
use asm80_types::{ReadFault, Stmt80};
use asm80_values::{AsmFault, AsmRule, assemble};
use std::alloc::Global;
use std::test::Fail;

// A source of one instruction and 8,192 names, and one line more.
fn many_names(alloc: Global, last: &[u8]) -> Result<Vec<Stmt80>, ReadFault> {
    let mut lines = Lines::new(alloc)?;
    lines.feed(b"ORG 100H\nNOP\n")?;
    for number in 0..8192 {
        let label = format!(in alloc; "N{number}:\n")?;
        lines.feed(label.as_bytes())?;
    }
    lines.feed(last)?;
    lines.finish()
}

// Last lines, and the fault that there is.
const LAST: [(&str, Option<AsmFault>); 5] = [
    ("", None),
    ("NOP", None),
    ("N8192:", Some(AsmFault::Refused(8195, AsmRule::V7))),
    ("N8192 EQU", Some(AsmFault::Refused(8195, AsmRule::V7))),
    ("N8191: NOP", Some(AsmFault::Refused(8195, AsmRule::V2))),
];

#[test]
fn names_have_a_limit(rt: HostRuntime) -> Result<(), Fail> {
    for (last, want) in &LAST {
        let statements = many_names(rt.alloc(), last.as_bytes())?;
        assert!(rt; assemble(rt.alloc(), &statements, 0xF000).err() == *want);
    }
    Ok(())
}
