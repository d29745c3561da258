//! Operands.

ghost use Rattle.std.specs.Prelude.{◌≡◌, List, ℕ};

use crate::expr::Expr;
use std::marker::Model;

/// The bytes of a string.
pub struct Bytes {
    items: Vec<u8>,
}

// Written out, so that letting one go is one call wherever it is done.
impl Drop for Bytes {
    fn drop(self) {
        let Bytes { items: _items } = self;
    }
}

impl Model for Bytes {
    ghost Value = { List ℕ };

    ghost view = { λ a. a.items.items };
}

impl Bytes {
    /// The bytes of a vector.
    pub fn from_vec(bytes: Vec<u8>) -> Bytes
        ensures { result ≡ bytes.items }
    {
        Bytes { items: bytes }
    }

    /// The bytes, without the quotes; two quotes within the string are one byte here.
    pub fn as_slice(&self) -> &[u8]
        ensures { result.now ≡ self.now }
    {
        self.items.as_slice()
    }
}

/// An operand: a string of two or more characters that stands alone, or an expression.
#[derive(Drop)]
pub enum Arg {
    Text(Bytes),
    Value(Expr),
}

/// The operands of a statement, in their order.
pub struct Args {
    items: Vec<Arg>,
}

// Written out, so that letting one go is one call wherever it is done.
impl Drop for Args {
    fn drop(self) {
        let Args { items: _items } = self;
    }
}

impl Model for Args {
    ghost use Rattle.std.specs.Prelude.{List};
    ghost use Rattle.asm80_types.specs.declared.arg.Arg.{Arg};

    ghost Value = { List Arg };

    ghost use Rattle.asm80_types.specs.contracts.expr.Expr as e;
    ghost use Rattle.std.specs.Coded.{codes};

    ghost coded = { Prim.hlevel (codes, e.the_row.coded) };

    ghost view = { λ a. a.items.items };
}

impl Args {
    /// The operands of a vector.
    pub fn from_vec(args: Vec<Arg>) -> Args
        ensures { result ≡ args.items }
    {
        Args { items: args }
    }

    /// The operands, in the order in which they stand.
    pub fn as_slice(&self) -> &[Arg]
        ensures { result.now ≡ self.now }
    {
        self.items.as_slice()
    }
}
