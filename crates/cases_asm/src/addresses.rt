// The first walk as text.
use crate::source::statements_of;
use asm80_first_walk::{Taken, Walked, walk};
use asm80_source_def::Meaning;
use asm80_types::{ReadFault, Stmt80};
use std::alloc::{AllocError, Global};

// What the label of a statement stands for at the end.
fn label_meaning(walked: &Walked, statement: &Stmt80) -> Option<Meaning> {
    let label = statement.label?;
    walked.names.meaning(&label)
}

// A number, and a `p` for a place.
fn push_meaning(text: &mut String, meaning: Meaning) -> Result<(), AllocError> {
    if let Some(value) = meaning.value {
        write!(text, ":{value}")?;
    }
    text.push_str(if meaning.is_place { "p" } else { "" })
}

// A statement that is taken: its index, `@`, its address, and what its label stands for.
fn push_row(
    text: &mut String,
    walked: &Walked,
    row: &Taken,
    statement: &Stmt80,
) -> Result<(), AllocError> {
    write!(text, "{}@{}", row.statement, row.at)?;
    match label_meaning(walked, statement) {
        Some(meaning) => push_meaning(text, meaning),
        None => Ok(()),
    }
}

fn push_rows(text: &mut String, walked: &Walked, statements: &[Stmt80]) -> Result<(), AllocError> {
    let mut before = "";
    for row in &walked.rows {
        if let Some(statement) = statements.get(row.statement) {
            text.push_str(before)?;
            push_row(text, walked, row, statement)?;
        }
        before = " ";
    }
    Ok(())
}

/// The statements of a source that are taken, or their refusal.
pub fn addresses_text(alloc: Global, source: &[u8]) -> Result<String, ReadFault> {
    let statements = statements_of(alloc, source)?;
    let mut text = String::new(alloc);
    match walk(alloc, &statements) {
        Ok(walked) => push_rows(&mut text, &walked, &statements)?,
        Err(fault) => write!(text, "{fault}")?,
    }
    Ok(text)
}
