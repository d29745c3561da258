// A law of lean texts.
ghost use Rattle.std.specs.Prelude.{◌≡◌, List};
ghost use Rattle.asm86_line_types.specs.declared.line.Line86.{Line86};
ghost use Rattle.asm80_types.specs.Program.{Program};
ghost use Rattle.templates.specs.Lean.{IsLean};

/// A law: a program has one lean text, since what is needed at a place is one set.
pub fn lean_texts_are_one()
    ensures { (p : Program) (xs ys : List Line86) → IsLean p xs → IsLean p ys → xs ≡ ys }
{}
