// Sets of 16-bit addresses.
ghost use Rattle.std.specs.Prelude.{◌≡◌, ◌==◌, ◌||◌, ◌∷◌, [], ℕ, List, false, length, IfOk};
ghost use Rattle.base.specs.Addresses.{has_address, IsSetOf};

use std::alloc::{AllocError, Global};
use std::marker::Model;

/// A set of 16-bit addresses, seen as a flag for each.
pub struct AddressSet {
    flags: Vec<bool>,
}

// Written out, so that letting one go is one call wherever it is done.
impl Drop for AddressSet {
    fn drop(self) {
        let AddressSet { flags: _flags } = self;
    }
}

impl Model for AddressSet {
    ghost use Rattle.std.specs.Prelude.{◌≡◌, List, Bool, length};

    ghost Value = { List Bool };

    ghost view = { λ a. a.flags.items };

    ghost invariant = { λ a. length a.flags.items ≡ 65536 };
}

impl AddressSet {
    /// The set of no address.
    pub fn new(alloc: Global) -> Result<AddressSet, AllocError>
        ensures { IfOk result (λ set. IsSetOf set []) }
    {
        Ok(AddressSet {
            flags: flags(alloc, 65_536)?,
        })
    }

    /// Adds an address.
    pub fn insert(&mut self, at: u16)
        ensures value { (a : ℕ) → has_address self.new a ≡ ((at == a) || has_address self.old a) }
        ensures stands { (addresses : List ℕ) → IsSetOf self.old addresses → IsSetOf self.new (at ∷ addresses) }
    {
        self.flags[usize::from(at)] = true;
    }

    /// Whether an address is among them.
    pub fn contains(&self, at: u16) -> bool
        ensures { result ≡ has_address self.now at }
    {
        self.flags[usize::from(at)]
    }
}

// So many flags, none of them set.
fn flags(alloc: Global, count: usize) -> Result<Vec<bool>, AllocError>
    ensures count { IfOk result (λ v. length v.items ≡ count) }
    ensures clear { IfOk result (λ v. (a : ℕ) → has_address v.items a ≡ false) }
{
    Vec::from_elem(alloc, false, count)
}
