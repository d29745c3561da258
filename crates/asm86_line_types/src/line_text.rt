// The bytes of a written line, in an array.
ghost use Rattle.std.specs.Prelude.{◌≡◌, ◌+◌, ◌≤◌, [], ◌++◌, length};

use std::marker::Model;

/// A written line, or a part of one: at most 40 bytes.
#[derive(Drop)]
pub struct LineText {
    bytes: [u8; 40],
    count: usize,
}

impl Model for LineText {
    ghost use Rattle.std.specs.Prelude.{List, ℕ, take, ◌≤◌};

    ghost Value = { List ℕ };

    ghost view = { λ t. take t.count t.bytes };

    ghost invariant = { λ t. t.count ≤ 40 };
}

impl LineText {
    /// The bytes.
    pub fn as_slice(&self) -> &[u8]
        ensures value { result.now ≡ self.now }
        ensures most { length self.now ≤ 40 }
    {
        &self.bytes[..self.count]
    }

    /// No bytes.
    pub(crate) fn empty() -> LineText
        ensures { result ≡ [] }
    {
        LineText {
            bytes: [0; 40],
            count: 0,
        }
    }

    /// More bytes after those that are there.
    pub(crate) fn push(&mut self, more: &[u8])
        requires { length self.old + length more.now ≤ 40 }
        ensures { self.new ≡ self.old ++ more.now }
    {
        let end = self.count + more.len();
        self.bytes[self.count..end].copy_from_slice(more);
        self.count = end;
    }

    /// The text of these bytes.
    pub(crate) fn of(bytes: &[u8]) -> LineText
        requires { length bytes.now ≤ 40 }
        ensures { result ≡ bytes.now }
    {
        let mut text = LineText::empty();
        text.push(bytes);
        text
    }
}
