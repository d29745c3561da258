// What is true of the cells of every text.
ghost use Rattle.asm86_line_types.specs.Cells.{AscendingStay, CellsAreSorted};

/// A law: the cells of an image are the text's, each once, in ascending order; cells that ascend in the text stay as they stand.
pub fn cells_are_sorted()
    ensures sorted { CellsAreSorted }
    ensures stay { AscendingStay }
{}
