// The columns of the 8080's table of instructions.
use cells::{Keep, Part};
use i80::{Instr80, defs, ends, length, uses, well_formed};
use std::alloc::AllocError;

const PARTS: [(&str, Part); 12] = [
    ("A", Part::A),
    ("B", Part::B),
    ("C", Part::C),
    ("D", Part::D),
    ("E", Part::E),
    ("H", Part::H),
    ("L", Part::L),
    ("S", Part::S),
    ("Z", Part::Z),
    ("AC", Part::Ac),
    ("P", Part::P),
    ("CY", Part::Cy),
];

fn push_parts(text: &mut String, parts: Keep) -> Result<(), AllocError> {
    for (name, part) in PARTS {
        if parts.has(part) {
            text.push(' ')?;
            text.push_str(name)?;
        }
    }
    Ok(())
}

/// The number of an instruction's bytes, the parts that it uses, those that it defines, and whether it ends a block.
pub fn push_columns(text: &mut String, instr: Instr80) -> Result<(), AllocError> {
    if !well_formed(instr) {
        return text.push_str("none of the 8080");
    }
    write!(text, "{}:", length(instr))?;
    push_parts(text, uses(instr))?;
    text.push_str(" >")?;
    push_parts(text, defs(instr))?;
    if ends(instr) {
        text.push_str(", ends")?;
    }
    Ok(())
}
