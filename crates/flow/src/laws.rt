// Laws over the definitions of needs and blocks.

ghost use Rattle.asm80_types.specs.Program.{Program, IsProgram};
ghost use Rattle.flow.specs.Blocks.{BlocksCut};
ghost use Rattle.flow.specs.Need.{NeedsAreClosed};

/// A law: what is needed at a node is what it uses, and what is needed behind its edges and not defined at it.
pub fn needs_are_closed()
    ensures { (p : Program) → NeedsAreClosed p }
{}

/// A law: the blocks are straight runs of 1 to 16 instructions, each instruction stands in one of them, and control goes from a block
/// to leaders alone.
pub fn blocks_cut_the_program()
    ensures { (p : Program) → IsProgram p → BlocksCut p }
{}
