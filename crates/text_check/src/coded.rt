// The numbers in the statements of lines.
ghost use Rattle.asm86_line_types.specs.Image.{statements};
ghost use Rattle.sym_block_def.specs.Sorts.{StatementIsCoded, StatementsAreCoded};
ghost use Rattle.simulation_def.specs.Matches.{DatumIsCoded, DataAreCoded};

use asm86_line_types::{Line86, Stmt86};

/// A law of lines: the numbers in their statements are within the ranges of their types.
pub fn lines_are_coded(lines: &[Line86])
    ensures instructions { StatementsAreCoded (statements lines.now) }
    ensures data { DataAreCoded (statements lines.now) }
{
    for line in lines {
        statement_is_coded(line.stmt);
    }
}

fn statement_is_coded(stmt: Stmt86)
    ensures instruction { StatementIsCoded stmt }
    ensures datum { DatumIsCoded stmt }
{}
