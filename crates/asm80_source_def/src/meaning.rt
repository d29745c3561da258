// What names stand for.

/// What a name or an expression stands for.
#[derive(Clone, Copy, PartialEq, Eq)]
pub struct Meaning {
    /// Its number, 16 bits; None where a fault hides it.
    pub value: Option<u16>,
    /// Whether it is a place name: a label, `$` alone, or a name that EQU or SET gave such a name or `$` alone.
    pub is_place: bool,
}

/// How a name was defined.
#[derive(Clone, Copy, PartialEq, Eq)]
pub enum NameKind {
    Label,
    /// By EQU, for good.
    Equate,
    /// By SET, until it is set again.
    Settable,
}
