// The texts that are written for a program match its blocks, in any style that respects what is needed.

ghost use Rattle.templates_law.specs.Match.Rows.{PairsMayGo, RowsAgree, RowsKeepSorts};
ghost use Rattle.templates_law.specs.Match.Exits.{StatementsArePassed, TemplatesAreWalked, ExitsAgree};
ghost use Rattle.templates_law.specs.Match.Plain.{OnesAreBlocks, PlainBlocksMatch};
ghost use Rattle.templates_law.specs.Match.Own.{OwnBlocksMatch, OwnTextsMatch, StylesRespectNeeds};

use flow::{blocks_cut_the_program, needs_are_closed};
use sym_block_def::steps_keep_sorts;

/// A law: where the terms of the 8080 and the 8086 agree on the parts that an instruction uses, they agree behind the instruction and
/// its template on the parts on which they agreed before and on those that it defines. A template without a save loses S, Z, AC and P.
pub fn rows_agree()
    ensures { RowsAgree }
{}

/// A law: the numbers of an instruction's template are in their ranges, and behind both the terms are made and of their sorts, as they
/// were before; and so they are behind any statements whose numbers are in their ranges.
pub fn rows_keep_sorts()
    ensures { RowsKeepSorts }
{
    steps_keep_sorts();
}

/// A law: where a SAHF stands before a saving INX, DCX or DAD, that SAHF and the LAHF behind it may both go.
pub fn pairs_may_go()
    ensures { PairsMayGo }
{}

/// A law: the walk passes statements that go on to the next, each by its effect.
pub fn statements_are_passed()
    ensures { StatementsArePassed }
{}

/// A law: each template has from one to five statements, and those of an instruction that goes on do so too.
pub fn templates_are_walked()
    ensures { TemplatesAreWalked }
{}

/// A law: where the template of an instruction that ends a block stands, and behind it a label that ends the way, the walk ends by an
/// exit that agrees with the 8080's. So do the end of a block whose last instruction goes on, a conditional jump that is short, and a
/// call of the system by INT 224.
pub fn exits_agree()
    ensures { ExitsAgree }
{}

/// A law: each instruction of a program alone is a block.
pub fn ones_are_blocks()
    ensures { OnesAreBlocks }
{}

/// A law: where all parts are kept at each instruction, the plain text of a program matches each of its instructions.
pub fn plain_blocks_match()
    ensures { PlainBlocksMatch }
{
    steps_keep_sorts();
    rows_agree();
    statements_are_passed();
    templates_are_walked();
    exits_agree();
}

/// A law: a text of a program in a style that respects what is needed matches each block of the program, with what is needed kept.
pub fn own_blocks_match()
    ensures { OwnBlocksMatch }
{
    needs_are_closed();
    blocks_cut_the_program();
    steps_keep_sorts();
    rows_agree();
    rows_keep_sorts();
    pairs_may_go();
    statements_are_passed();
    templates_are_walked();
    exits_agree();
}

/// A law: of all blocks of the program, none has a reason why such a text does not match it.
pub fn own_texts_match()
    ensures { OwnTextsMatch }
{
    own_blocks_match();
}

/// A law: the style that leaves nothing out and the lean style respect what is needed.
pub fn styles_respect_needs()
    ensures { StylesRespectNeeds }
{}
