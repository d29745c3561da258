// From the statements of a source to its program.
ghost use Rattle.std.specs.Prelude.{◌≡◌, ℕ, List, true, map, IfOk, Err};
ghost use Rattle.asm80_types.specs.declared.stmt.Stmt80.{Stmt80};
ghost use Rattle.asm80_types.specs.Tree.{statement_of};
ghost use Rattle.asm80_types.specs.Program.{is_top};
ghost use Rattle.asm80_source_def.specs.declared.rule.AsmRule.{AsmRule};
ghost use Rattle.asm80_source_def.specs.Assembly.{IsAssembled, IsRefused};
ghost use Rattle.asm80_values.specs.Second.{AreFound};

use crate::item::Item;
use crate::layout::layout_fault;
use crate::program::program_of_items;
use crate::second_walk::{items_of, starts_of};
use asm80_first_walk::{AsmFault, walk};
use asm80_types::{Program80, Stmt80};
use base::AddressSet;
use std::alloc::Global;

// The program of items, or the first rule of the layout that they break, by the addresses at which instructions start.
fn laid_out(
    alloc: Global,
    items: Vec<Item>,
    starts: &AddressSet,
    top: u16,
) -> Result<Program80, AsmFault>
    requires top { is_top top ≡ true }
    requires found { (statements : List Stmt80) × AreFound statements items.items starts.now }
    ensures assembled { (statements : List Stmt80) → AreFound statements items.items starts.now → IfOk result (λ p. IsAssembled (map statement_of statements) top p) }
    ensures refused { (statements : List Stmt80) → AreFound statements items.items starts.now → (line : ℕ) (rule : AsmRule) → result ≡ Err (AsmFault.Refused line rule) → IsRefused (map statement_of statements) top line rule }
{
    if let Some((line, rule)) = layout_fault(alloc, &items, starts, top)? {
        return Err(AsmFault::Refused(line, rule));
    }
    Ok(program_of_items(alloc, items, top)?)
}

/// The program of the statements of a source, for a top of the program area, a multiple of 100H from 1000H to 0FF00H. A refusal
/// names the first rule that is broken, of the first walk, else of the second, else of the layout, and the line of the first
/// statement in the list that breaks it; for S3, which none breaks, line 0.
pub fn assemble(alloc: Global, statements: &[Stmt80], top: u16) -> Result<Program80, AsmFault>
    requires { is_top top ≡ true }
    ensures assembled { IfOk result (λ p. IsAssembled (map statement_of statements.now) top p) }
    ensures refused { (line : ℕ) (rule : AsmRule) → result ≡ Err (AsmFault.Refused line rule) → IsRefused (map statement_of statements.now) top line rule }
{
    let walked = walk(alloc, statements)?;
    let starts = starts_of(alloc, walked.rows.as_slice())?;
    let items = items_of(alloc, statements, walked, &starts)?;
    laid_out(alloc, items, &starts, top)
}
