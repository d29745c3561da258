//! The names of a source.

ghost use Rattle.std.specs.Prelude.{◌≡◌, ◌||◌, ℕ, List, [], Some, None, cond, false, length, MatchOption, OnOk, OnErr, is_some, not, filter, option_map};
ghost use Rattle.std.specs.Str.{bytes_eq};
ghost use Rattle.asm80_source_def.specs.declared.meaning.NameKind.{NameKind};
ghost use Rattle.asm80_source_def.specs.Names.{Name, named, clashes, overflows, defined, is_settable};
ghost use Rattle.asm80_source_def.specs.FirstFaults.{rule_if};
ghost use Rattle.asm80_source_def.specs.declared.rule.AsmRule.TheVariants.{V2, V7};
ghost use Rattle.asm80_source_def.specs.Walk.{meaning_in};
ghost use Rattle.asm80_first_walk.specs.Entries.{name_of_entry, entry_in, has_text, not_settable};

use asm80_source_def::{AsmRule, Meaning, NameKind};
use asm80_types::Name80;
use std::alloc::{AllocError, Global};
use std::collections::HashMap;
use std::marker::Model;

/// The most names that a source may define.
const MOST_NAMES: usize = 8192;

/// How a name was defined, and what it stands for.
#[derive(Clone, Copy)]
pub(crate) struct Entry {
    kind: NameKind,
    meaning: Meaning,
}

/// The names of a source that are defined so far, each once, in the order of their first definitions.
pub struct Names {
    order: Vec<Name80>,
    entries: HashMap<Name80, Entry>,
}

// Written out, so that letting one go is one call wherever it is done.
impl Drop for Names {
    fn drop(self) {
        let Names {
            order: _order,
            entries: _entries,
        } = self;
    }
}

impl Model for Names {
    ghost use Rattle.std.specs.Prelude.{List};
    ghost use Rattle.asm80_source_def.specs.Names.{Name};
    ghost use Rattle.asm80_first_walk.specs.Entries.{entry_in, names_in, AreInOrder};

    ghost Value = { List Name };

    ghost view = { λ a. names_in (entry_in a.entries.entries) a.order.items };

    ghost invariant = { λ a. AreInOrder (entry_in a.entries.entries) a.order.items };
}

impl Names {
    /// No names.
    pub fn new(alloc: Global) -> Names
        ensures { result ≡ [] }
    {
        Names {
            order: Vec::new(alloc),
            entries: HashMap::new(alloc),
        }
    }

    // How many there are.
    fn len(&self) -> usize
        ensures { result ≡ length self.now }
    {
        // a look at them, for what the two keep to
        let _entries = &self.entries;
        self.order.len()
    }

    // What the map has of a name.
    fn entry(&self, name: &Name80) -> Option<Entry>
        ensures { MatchOption result (named self.now name.now ≡ None) (λ e. named self.now name.now ≡ Some (name_of_entry (name.now, e))) }
    {
        // a look at them, for what the two keep to
        let _order = &self.order;
        self.entries.get(name).copied()
    }

    /// What a name stands for; None where it is not defined.
    pub fn meaning(&self, name: &Name80) -> Option<Meaning>
        ensures { result ≡ meaning_in self.now name.now }
    {
        let entry = self.entry(name)?;
        Some(entry.meaning)
    }

    /// How a name was defined; None where it is not defined.
    pub fn kind(&self, name: &Name80) -> Option<NameKind>
        ensures { result ≡ option_map (λ (n : Name). n.kind) (named self.now name.now) }
    {
        let entry = self.entry(name)?;
        Some(entry.kind)
    }

    /// Which rule a definition of this kind would break: V2 where it would define a name twice, SET after SET excepted, and V7
    /// where there is no room for a new name.
    pub fn rule_of(&self, name: &Name80, kind: NameKind) -> Option<AsmRule>
        ensures { (meaning : Meaning) → result ≡ rule_if (clashes self.now (record { text = name.now; kind = kind; meaning = meaning })) V2 (rule_if (overflows self.now (record { text = name.now; kind = kind; meaning = meaning })) V7 None) }
    {
        match self.kind(name) {
            Some(old) => rule_if(
                old != NameKind::Settable || kind != NameKind::Settable,
                AsmRule::V2,
            ),
            None => rule_if(self.len() >= MOST_NAMES, AsmRule::V7),
        }
    }

    /// Defines a name, or sets it again; one that clashes or has no room is not made.
    pub fn define(
        &mut self,
        name: Name80,
        kind: NameKind,
        meaning: Meaning,
    ) -> Result<(), AllocError>
        ensures made { OnOk result (self.new ≡ defined self.old (record { text = name; kind = kind; meaning = meaning })) }
        ensures unchanged { OnErr result (self.new ≡ self.old) }
        ensures wanted { OnErr result ((clashes self.old (record { text = name; kind = kind; meaning = meaning }) || overflows self.old (record { text = name; kind = kind; meaning = meaning })) ≡ false) }
    {
        if self.rule_of(&name, kind).is_some() {
            return Ok(());
        }
        self.put(name, Entry { kind, meaning })
    }

    // Puts an entry, of a name that is new or set again.
    fn put(&mut self, name: Name80, entry: Entry) -> Result<(), AllocError>
        ensures made { OnOk result ((clashes self.old (name_of_entry (name, entry)) || overflows self.old (name_of_entry (name, entry))) ≡ false → self.new ≡ defined self.old (name_of_entry (name, entry))) }
        ensures unchanged { OnErr result (self.new ≡ self.old) }
    {
        self.order.reserve(1)?;
        let old = self.entries.insert(name, entry)?;
        if old.is_none() {
            self.order.push_reserved(name);
        }
        Ok(())
    }

    /// The names that are no SET names, in their order.
    pub fn without_settable(self) -> Names
        ensures { result ≡ filter (λ (n : Name). not (is_settable n.kind)) self }
    {
        let Names {
            mut order,
            mut entries,
        } = self;
        forget_settable(&mut entries, &order);
        order.retain(
            |name: &Name80| -> bool
                ensures { result ≡ is_some (entry_in entries.entries name.now) }
            { entries.contains_key(name) },
        );
        Names { order, entries }
    }
}

// Takes those of these names that are SET names from the map.
fn forget_settable(entries: &mut HashMap<Name80, Entry>, names: &[Name80])
    ensures { (text : List ℕ) → entry_in entries.new.entries text ≡ cond (has_text names.now text) (not_settable (entry_in entries.old.entries text)) (entry_in entries.old.entries text) }
{
    for name in names {
        forget_if_settable(entries, name);
    }
}

// Takes a name from the map if it is a SET name.
fn forget_if_settable(entries: &mut HashMap<Name80, Entry>, name: &Name80)
    ensures { (text : List ℕ) → entry_in entries.new.entries text ≡ cond (bytes_eq name.now text) (not_settable (entry_in entries.old.entries text)) (entry_in entries.old.entries text) }
{
    if let Some(entry) = entries.get(name).copied()
        && entry.kind == NameKind::Settable
    {
        entries.remove(name);
    }
}

fn rule_if(breaks: bool, rule: AsmRule) -> Option<AsmRule>
    ensures { result ≡ rule_if breaks rule None }
{
    if breaks { Some(rule) } else { None }
}
