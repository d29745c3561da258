// The bytes that the console and the ports give.
use std::marker::Model;

/// Bytes that are taken from their front, seen as those that are left.
#[derive(Drop)]
pub struct Input {
    bytes: Vec<u8>,
    taken: usize,
}

impl Model for Input {
    ghost use Rattle.std.specs.Prelude.{ℕ, List, drop, length, ◌≤◌};

    ghost Value = { List ℕ };

    ghost view = { λ p. drop p.taken p.bytes.items };

    ghost invariant = { λ p. p.taken ≤ length p.bytes.items };
}

impl Input {
    ghost use Rattle.std.specs.Prelude.{◌≡◌, ◌≤◌, [], ◌∷◌, drop, length, MatchOption};

    pub fn new(bytes: Vec<u8>) -> Input
        ensures { result ≡ bytes.items }
    {
        Input { bytes, taken: 0 }
    }

    /// The bytes that are left.
    pub fn left(&self) -> &[u8]
        ensures { result.now ≡ self.now }
    {
        &self.bytes[self.taken..]
    }

    /// Takes the next byte, if one is left.
    pub fn take(&mut self) -> Option<u8>
        ensures { MatchOption result ((self.old ≡ []) × (self.new ≡ [])) (λ byte. self.old ≡ byte ∷ self.new) }
    {
        let Some(byte) = self.bytes.get(self.taken) else {
            return None;
        };
        let byte = *byte;
        self.taken += 1;
        Some(byte)
    }

    /// Takes this many of the bytes that are left.
    pub fn skip(&mut self, count: usize)
        requires { count ≤ length self.old }
        ensures { self.new ≡ drop count self.old }
    {
        self.taken += count;
    }
}
