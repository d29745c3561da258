// The statements of a text in their order, and the place behind each label, found by a hash.

ghost use Rattle.std.specs.Prelude.{◌≡◌, Some, cond, IfOk, OnOk};
ghost use Rattle.asm86_line_types.specs.declared.line.Label.{Label};
ghost use Rattle.asm86_line_types.specs.Layout.{marks};
ghost use Rattle.asm86_line_types.specs.Image.{statements, offset_in};
ghost use Rattle.sym_block_def.specs.Walk86.{after_label};
ghost use Rattle.sym_run.specs.Places.{IsPlace};

use asm86_line_types::{Label, LabelTable, Line86, Stmt86};
use std::alloc::{AllocError, Global};
use std::marker::Model;

/// The statements of a text, and what stands behind each label.
pub struct Index86 {
    statements: Vec<Stmt86>,
    places: LabelTable,
}

// Written out, so that letting one go is one call wherever it is done.
impl Drop for Index86 {
    fn drop(self) {
        let Index86 {
            statements: _statements,
            places: _places,
        } = self;
    }
}

impl Model for Index86 {
    ghost use Rattle.std.specs.Prelude.{List};
    ghost use Rattle.asm86_line_types.specs.declared.line.Label.{Label};
    ghost use Rattle.asm86_line_types.specs.declared.line.Stmt86.{Stmt86};
    ghost use Rattle.asm86_line_types.specs.Image.{offset_in};
    ghost use Rattle.sym_block_def.specs.Walk86.{after_label};
    ghost use Rattle.sym_run.specs.Places.{IsPlace};

    ghost Value = { List Stmt86 };

    ghost view = { λ i. i.statements.items };

    ghost invariant = { λ i. (l : Label) → IsPlace i.statements.items (offset_in i.places l) (after_label i.statements.items l) };
}

impl Index86 {
    /// The statements of lines. No other call takes memory.
    pub fn of(alloc: Global, lines: &[Line86]) -> Result<Index86, AllocError>
        ensures { IfOk result (λ index. index ≡ statements lines.now) }
    {
        let statements = statements_of(alloc, lines)?;
        let places = places_of(alloc, &statements)?;
        Ok(Index86 { statements, places })
    }

    /// The statements, in the order of the lines.
    pub fn statements(&self) -> &[Stmt86]
        ensures { result.now ≡ self.now }
    {
        &self.statements
    }

    /// The place behind a label, counted in statements from 0; None where the text has no such label.
    pub fn behind(&self, label: Label) -> Option<usize>
        ensures { IsPlace self.now result (after_label self.now label) }
    {
        // a look at them, for what the index keeps to
        let _statements = &self.statements;
        self.places.get(label)
    }
}

fn statements_of(alloc: Global, lines: &[Line86]) -> Result<Vec<Stmt86>, AllocError>
    ensures { IfOk result (λ list. list.items ≡ statements lines.now) }
{
    let mut list = Vec::new(alloc);
    for line in lines {
        list.push(line.stmt)?;
    }
    Ok(list)
}

// From the last statement to the first, so that of two labels that are the same the first one counts.
fn places_of(alloc: Global, statements: &[Stmt86]) -> Result<LabelTable, AllocError>
    ensures { IfOk result (λ places. (l : Label) → IsPlace statements.now (offset_in places l) (after_label statements.now l)) }
{
    let mut places = LabelTable::new(alloc);
    let mut at = statements.len();
    while at > 0 {
        at -= 1;
        define(&mut places, statements[at], at + 1)?;
    }
    Ok(places)
}

// The place behind a statement, if that is a label.
fn define(places: &mut LabelTable, stmt: Stmt86, place: usize) -> Result<(), AllocError>
    ensures { OnOk result ((l : Label) → offset_in places.new l ≡ cond (marks l stmt) (Some place) (offset_in places.old l)) }
{
    if let Stmt86::Mark(label) = stmt {
        places.put(label, place)?;
    }
    Ok(())
}
