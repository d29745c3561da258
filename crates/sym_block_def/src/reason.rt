// Why a text does not match its program.

use cells::Part;

/// The first thing at which a text does not match: in its opening, the runtime or the data; or in a block, whose label is missing,
/// whose walk is too long or meets what it may not, or whose outcome differs.
#[derive(Clone, Copy, PartialEq, Eq)]
pub enum Reason {
    /// The text does not begin with CSEG, the prologue for the program's top, and the label of 100H.
    Opening,
    /// The statements of the runtime do not stand in the text, one after the other.
    Runtime,
    /// A data cell of the program is not the text's.
    DataPart,
    /// The block's label is not in the text.
    Missing,
    /// A way to an exit without an instruction, or with more than 10 for each of the block's.
    Length,
    /// A statement that a walk may not meet.
    Form,
    /// The loads and stores differ.
    Actions,
    /// The exits differ.
    Exits,
    /// A part that is needed after the block differs.
    Kept(Part),
    /// SP after the block differs.
    KeptSp,
}
