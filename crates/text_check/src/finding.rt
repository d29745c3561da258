// What is found of a text.
use block_check::Reason;

/// What is found of a text.
#[derive(Clone, Copy, PartialEq, Eq)]
pub enum Finding {
    /// Each of so many blocks is shown, and so are the opening, the runtime and the data.
    Shown(u32),
    /// The first address of the first block that is not shown, or 0 for the opening, the runtime and the data; and why not.
    NotShown(u16, Reason),
}
