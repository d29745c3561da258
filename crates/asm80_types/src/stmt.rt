//! Statements.

use crate::arg::Args;
use crate::name::Name80;

/// A statement. Names are in capitals.
pub struct Stmt80 {
    /// The number of its line, counted from 1.
    pub line: u32,
    pub label: Option<Name80>,
    pub op: Option<Name80>,
    pub args: Args,
}

// Written out, so that letting one go is one call wherever it is done.
impl Drop for Stmt80 {
    fn drop(self) {
        let Stmt80 {
            line: _line,
            label: _label,
            op: _op,
            args: _args,
        } = self;
    }
}
