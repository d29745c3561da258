// The offset of each label, found by a hash.
ghost use Rattle.std.specs.Prelude.{◌≡◌, ◌++◌, [], ◌∷◌, Ok, true, is_some, not, IfOk};
ghost use Rattle.asm86_line_types.specs.Image.{offset_in};
ghost use Rattle.asm86.specs.Places.{label_place};

use asm86_line_types::{Label, LabelTable};
use std::alloc::{AllocError, Global};
use std::marker::Model;

/// Labels with their offsets in the code, in the text's order.
pub struct Offsets {
    labels: Vec<(Label, usize)>,
    places: LabelTable,
}

// Written out, so that letting one go is one call wherever it is done.
impl Drop for Offsets {
    fn drop(self) {
        let Offsets {
            labels: _labels,
            places: _places,
        } = self;
    }
}

impl Model for Offsets {
    ghost use Rattle.std.specs.Prelude.{◌≡◌, List, ℕ};
    ghost use Rattle.asm86_line_types.specs.declared.line.Label.{Label};
    ghost use Rattle.asm86_line_types.specs.Image.{offset_in};

    ghost Value = { List (Label × ℕ) };

    ghost view = { λ o. o.labels.items };

    ghost invariant = { λ o. (l : Label) → offset_in o.places l ≡ offset_in o.labels.items l };
}

impl Offsets {
    /// No labels.
    pub fn empty(alloc: Global) -> Offsets
        ensures { result ≡ [] }
    {
        Offsets {
            labels: Vec::new(alloc),
            places: LabelTable::new(alloc),
        }
    }

    /// The offset of a label; None where it is not there.
    pub fn get(&self, label: Label) -> Option<usize>
        ensures { result ≡ offset_in self.now label }
    {
        // a look at them, for what the two keep to
        let _labels = &self.labels;
        self.places.get(label)
    }

    /// The offset of a label that is there.
    pub fn place(&self, label: Label) -> usize
        ensures { result ≡ label_place self.now label }
    {
        self.get(label).unwrap_or(0)
    }

    /// A label more, at this offset; false where it was there before.
    pub fn define(&mut self, label: Label, at: usize) -> Result<bool, AllocError>
        ensures fresh { IfOk result (λ fresh. fresh ≡ not (is_some (offset_in self.old label))) }
        ensures added { result ≡ Ok true → self.new ≡ self.old ++ (label, at) ∷ [] }
    {
        if self.get(label).is_some() {
            return Ok(false);
        }
        self.labels.reserve(1)?;
        self.places.put(label, at)?;
        self.labels.push_reserved((label, at));
        Ok(true)
    }
}
