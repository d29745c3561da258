// Blocks, needs and saves of programs.
use asm80_types::Program80;
use cells::{Keep, Part};
use flow::{Graph, saves};
use std::alloc::{AllocError, Global};

static PARTS: [(&str, Part); 12] = [
    (" A", Part::A),
    (" B", Part::B),
    (" C", Part::C),
    (" D", Part::D),
    (" E", Part::E),
    (" H", Part::H),
    (" L", Part::L),
    (" S", Part::S),
    (" Z", Part::Z),
    (" AC", Part::Ac),
    (" P", Part::P),
    (" CY", Part::Cy),
];

fn push_parts(text: &mut String, parts: Keep) -> Result<(), AllocError> {
    text.push_str("parts")?;
    for (name, part) in &PARTS {
        if parts.has(*part) {
            text.push_str(*name)?;
        }
    }
    Ok(())
}

// Parts, or none.
fn parts_text(alloc: Global, parts: Option<Keep>) -> Result<String, AllocError> {
    let mut text = String::new(alloc);
    match parts {
        Some(parts) => push_parts(&mut text, parts)?,
        None => text.push_str("none")?,
    }
    Ok(text)
}

// The leaders of blocks, each with the number of its instructions.
fn push_blocks(text: &mut String, graph: &Graph) -> Result<(), AllocError> {
    let mut before = "";
    for leader in graph.leaders() {
        let count = graph.block(*leader).unwrap_or(0);
        write!(text, "{before}{leader:04x} {count}")?;
        before = ", ";
    }
    Ok(())
}

/// The leaders of a program, and how many instructions each block has.
pub fn blocks_text(alloc: Global, program: &Program80) -> Result<String, AllocError> {
    let graph = Graph::of(alloc, program)?;
    let mut text = String::new(alloc);
    push_blocks(&mut text, &graph)?;
    Ok(text)
}

/// How many instructions the block at an address has.
pub fn block_text(alloc: Global, program: &Program80, at: u16) -> Result<String, AllocError> {
    let graph = Graph::of(alloc, program)?;
    match graph.block(at) {
        Some(count) => format!(in alloc; "{count}"),
        None => String::from_str(alloc, "none"),
    }
}

/// What is needed at an address.
pub fn need_text(alloc: Global, program: &Program80, at: u16) -> Result<String, AllocError> {
    let graph = Graph::solved(alloc, program)?;
    parts_text(alloc, graph.need(at))
}

/// What is needed at a return.
pub fn return_text(alloc: Global, program: &Program80) -> Result<String, AllocError> {
    let graph = Graph::solved(alloc, program)?;
    parts_text(alloc, Some(graph.need_return()))
}

/// The flags that are saved at an address.
pub fn saves_text(alloc: Global, program: &Program80, at: u16) -> Result<String, AllocError> {
    let graph = Graph::solved(alloc, program)?;
    parts_text(alloc, saves(program, &graph, at))
}
