//! The walk.

ghost use Rattle.asm80_first_walk.specs.Walked.{Walks};

use crate::walked::{AsmFault, Walked};
use crate::walker::Walker;
use asm80_types::Stmt80;
use std::alloc::Global;

/// The first walk through the statements of a source: those that are taken, with their addresses, and all names, or the first
/// fault of labels, EQU, SET, ORG, DS, IF, ENDIF and END.
pub fn walk(alloc: Global, statements: &[Stmt80]) -> Result<Walked, AsmFault>
    ensures { Walks statements.now result }
{
    let mut walker = Walker::new(alloc);
    walker.run(statements)?;
    match walker.verdict() {
        Some((line, rule)) => Err(AsmFault::Refused(line, rule)),
        None => Ok(walker.into_walked()),
    }
}
