// What the bytes of a file come from, some at a time.

use crate::piece::Piece;

/// What a file is written from. It gives its bytes in order, at most 512 at a time, and need not hold them all at once.
pub trait Producer {
    ghost use Rattle.std.specs.Prelude.{◌≡◌, ℕ, ◌+◌, ◌<◌, ◌≤◌, List, [], ◌++◌, length, true, false};

    // The bytes that are yet to come, and how many calls may still answer that there are more.
    ghost left: { Self → List ℕ };

    ghost turns: { Self → ℕ };

    /// Adds the next bytes to a piece with room for 512 more, or none, and answers whether more may come.
    fn produce(&mut self, piece: &mut Piece) -> bool
        requires { length piece.old + 512 ≤ 4096 }
        ensures bytes { piece.new ++ left self.new ≡ piece.old ++ left self.old }
        ensures turn { result ≡ true → turns self.new < turns self.old }
        ensures end { result ≡ false → left self.new ≡ [] };
}
