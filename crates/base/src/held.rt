// The line that is not complete yet.
ghost use Rattle.std.specs.Prelude.{◌≡◌, [], Some, None, MatchOption};
ghost use Rattle.base.specs.Held.{held_with_byte};

use std::marker::Model;

/// The bytes of a line so far, as long as they are at most 256.
#[derive(Drop)]
pub struct HeldLine {
    bytes: [u8; 256],
    len: usize,
    is_long: bool,
}

impl Model for HeldLine {
    ghost use Rattle.std.specs.Prelude.{Option, Some, None, List, ℕ, take, ◌≤◌, if◌then◌else◌};

    ghost Value = { Option (List ℕ) };

    ghost view = { λ a. if a.is_long then None else Some (take a.len a.bytes) };

    ghost invariant = { λ a. a.len ≤ 256 };
}

impl HeldLine {
    /// A line of no bytes.
    pub fn new() -> HeldLine
        ensures { result ≡ Some [] }
    {
        HeldLine {
            bytes: [0; 256],
            len: 0,
            is_long: false,
        }
    }

    /// The line goes on with a byte.
    pub fn push(&mut self, b: u8)
        ensures { self.new ≡ held_with_byte self.old b }
    {
        if self.len < 256 {
            self.bytes[self.len] = b;
            self.len += 1;
        } else {
            self.is_long = true;
        }
    }

    /// The bytes, unless there are more than 256.
    pub fn line(&self) -> Option<&[u8]>
        ensures { MatchOption result (self.now ≡ None) (λ bytes. self.now ≡ Some bytes.now) }
    {
        if self.is_long {
            None
        } else {
            Some(&self.bytes[..self.len])
        }
    }
}
