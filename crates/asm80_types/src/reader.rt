//! What reads the statements of a stream.

use crate::fault::ReadFault;
use crate::stmt::Stmt80;
use std::alloc::{AllocError, Global};

/// A reader of the statements of a stream, which is fed the stream in pieces, however it is cut.
pub trait StatementReader: Drop {
    ghost use Rattle.std.specs.Prelude.{◌≡◌, ◌≢◌, ◌++◌, List, [], ℕ, Err, IfOk};
    ghost use Rattle.asm80_types.specs.declared.fault.ReadFault.TheVariants.{Memory};
    ghost use Rattle.asm80_types.specs.Reading.{Reading, Finishes, HasOneOutcome};
    ghost use Rattle.asm80_types.specs.WellFormed.{AreWellFormed};

    // Which statements a stream has.
    ghost reading: { Reading };

    // It has been fed this stream, and memory has not run out.
    ghost was_fed: { Self → List ℕ → Type 0 };

    /// A reader of a stream of which nothing has come yet.
    fn new(alloc: Global) -> Result<Self, AllocError>
        ensures { IfOk result (λ reader. was_fed reader []) };

    /// Takes the next piece of the stream. After want of memory it is of no use; a faulty line is told at the end too.
    fn feed(&mut self, piece: &[u8]) -> Result<(), ReadFault>
        ensures { result ≢ Err Memory → (stream : List ℕ) → was_fed self.old stream → was_fed self.new (stream ++ piece.now) };

    /// The statements of the whole stream.
    fn finish(self) -> Result<Vec<Stmt80>, ReadFault>
        ensures outcome { (stream : List ℕ) → was_fed self stream → Finishes reading stream result }
        ensures well_formed { IfOk result (λ v. AreWellFormed v.items) };

    /// A law: a stream has at most one outcome.
    fn reading_has_one_outcome()
        ensures { HasOneOutcome reading };
}
