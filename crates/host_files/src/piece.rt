// A piece of a file, filled before it is written.
ghost use Rattle.std.specs.Prelude.{◌≡◌, ◌+◌, ◌-◌, ◌==◌, ◌≤◌, nat_le, min, take, [], ◌++◌, length};

use crate::PIECE;
use std::marker::Model;

/// At most 4,096 bytes.
#[derive(Drop)]
pub struct Piece {
    bytes: [u8; PIECE],
    count: usize,
}

impl Model for Piece {
    ghost use Rattle.std.specs.Prelude.{List, ℕ, take, ◌≤◌};

    ghost Value = { List ℕ };

    ghost view = { λ p. take p.count p.bytes };

    ghost invariant = { λ p. p.count ≤ 4096 };
}

impl Piece {
    /// No bytes.
    pub fn new() -> Piece
        ensures { result ≡ [] }
    {
        Piece {
            bytes: [0; PIECE],
            count: 0,
        }
    }

    /// The bytes.
    pub fn as_slice(&self) -> &[u8]
        ensures { result.now ≡ self.now }
    {
        &self.bytes[..self.count]
    }

    /// Nothing more goes in.
    pub fn is_full(&self) -> bool
        ensures { result ≡ (length self.now == 4096) }
    {
        self.count == PIECE
    }

    /// There is room for 512 bytes more.
    pub fn has_room(&self) -> bool
        ensures { result ≡ nat_le (length self.now + 512) 4096 }
    {
        self.count + 512 <= PIECE
    }

    /// Adds bytes, for which there is room.
    pub fn push(&mut self, more: &[u8])
        requires { length self.old + length more.now ≤ 4096 }
        ensures { self.new ≡ self.old ++ more.now }
    {
        let end = self.count + more.len();
        self.bytes[self.count..end].copy_from_slice(more);
        self.count = end;
    }

    /// Adds as many of the first bytes as go in, and answers how many.
    pub fn fill(&mut self, more: &[u8]) -> usize
        ensures count { result ≡ min (length more.now) (4096 - length self.old) }
        ensures bytes { self.new ≡ self.old ++ take result more.now }
    {
        let count = more.len().min(PIECE - self.count);
        self.push(&more[..count]);
        count
    }
}
