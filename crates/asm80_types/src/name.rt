//! Names.

ghost use Rattle.std.specs.Prelude.{◌≡◌, List, [], ◌∷◌, length, take, ℕ, ◌-◌};
ghost use Rattle.std.proofs.Common.{rules};
ghost use Rattle.std.specs.Cmp.{partial_equiv_from_equiv};
ghost use Rattle.std.specs.Cmp.Lexicographic.{nat_list_eq_equiv};
ghost use Rattle.std.specs.Cmp.Rules.{hashing};
ghost use Rattle.std.specs.Str.{bytes_eq};
ghost use Rattle.asm80_types.specs.Name.{IsName};

use std::hash::{Hash, Hasher};
use std::marker::Model;

/// A name of the source: 1 to 16 capital letters and digits.
#[derive(Clone, Copy)]
pub struct Name80 {
    bytes: [u8; 16],
    len: usize,
}

impl Model for Name80 {
    ghost use Rattle.std.specs.Prelude.{List, ℕ, take, length};

    ghost Value = { List ℕ };

    ghost use Rattle.asm80_types.specs.Name.{padded, IsPadded};
    ghost use Rattle.asm80_types.specs.Padded.{padded_back};

    ghost view = { λ a. take a.len a.bytes };

    ghost invariant = { λ a. IsPadded a };

    ghost inverse = { λ n. record { bytes = padded n; len = length n } };

    ghost inverse_ok = { λ a h. padded_back a h };
}

impl Name80 {
    /// The name of these bytes, which are 1 to 16 capital letters and digits.
    pub fn of(bytes: &[u8]) -> Name80
        requires { IsName bytes.now }
        ensures { result ≡ bytes.now }
    {
        let mut kept = [0; 16];
        kept[..bytes.len()].copy_from_slice(bytes);
        Name80 {
            bytes: kept,
            len: bytes.len(),
        }
    }

    /// Its bytes: capital letters and digits, without the `$` that a source may have among them.
    pub fn as_slice(&self) -> &[u8]
        ensures value { result.now ≡ self.now }
        ensures name { IsName self.now }
    {
        &self.bytes[..self.len]
    }
}

impl PartialEq for Name80 {
    ghost eq = { bytes_eq };

    ghost laws = { partial_equiv_from_equiv nat_list_eq_equiv };

    fn eq(&self, other: &Name80) -> bool {
        self.as_slice() == other.as_slice()
    }
}

impl Eq for Name80 {
    ghost laws = { nat_list_eq_equiv };
}

// (a name is hashed by one write of its bytes)
impl Hash for Name80 {
    ghost hash_input = { λ n. n ∷ [] };

    ghost respects_eq = { Prim.search (hashing, rules) };

    fn hash<H: Hasher>(&self, state: &mut H) {
        state.write(self.as_slice());
    }
}
