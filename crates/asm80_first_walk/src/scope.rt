//! What an expression sees.

use crate::names::Names;

/// What an expression sees: the address of its statement's first byte, and the names that it may use.
#[derive(Clone, Copy)]
pub struct Scope<'a> {
    pub here: u16,
    pub names: &'a Names,
}
