// A number for each label, found by a hash.
ghost use Rattle.std.specs.Prelude.{◌≡◌, [], Some, cond, OnErr, OnOk};
ghost use Rattle.asm86_line_types.specs.declared.line.Label.{Label};
ghost use Rattle.asm86_line_types.specs.Image.{offset_in};
ghost use Rattle.asm86_line_types.specs.Layout.{same_label};

use crate::line::Label;
use std::alloc::{AllocError, Global};
use std::collections::HashMap;
use std::marker::Model;

/// Labels, each with a number: an offset in the code, or a place among statements.
pub struct LabelTable {
    numbers: HashMap<Label, usize>,
}

// Written out, so that letting one go is one call wherever it is done.
impl Drop for LabelTable {
    fn drop(self) {
        let LabelTable { numbers: _numbers } = self;
    }
}

impl Model for LabelTable {
    ghost use Rattle.std.specs.Prelude.{List, ℕ};
    ghost use Rattle.asm86_line_types.specs.declared.line.Label.{Label};

    ghost Value = { List (Label × ℕ) };

    ghost view = { λ t. t.numbers.entries };
}

impl LabelTable {
    /// No labels.
    pub fn new(alloc: Global) -> LabelTable
        ensures { result ≡ [] }
    {
        LabelTable {
            numbers: HashMap::new(alloc),
        }
    }

    /// The number of a label; None where it has none.
    pub fn get(&self, label: Label) -> Option<usize>
        ensures { result ≡ offset_in self.now label }
    {
        self.numbers.get(&label).copied()
    }

    /// Gives a label its number, in place of one that it had.
    pub fn put(&mut self, label: Label, number: usize) -> Result<(), AllocError>
        ensures ok { OnOk result ((l : Label) → offset_in self.new l ≡ cond (same_label label l) (Some number) (offset_in self.old l)) }
        ensures err { OnErr result (self.new ≡ self.old) }
    {
        self.numbers.insert(label, number)?;
        Ok(())
    }
}
