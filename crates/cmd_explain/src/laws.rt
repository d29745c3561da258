// A law of explanations.

ghost use Rattle.cmd_explain.specs.Laws.{TextsAreExplainedOnce};

/// A law: of a program and a text with its image just one thing is said.
pub fn texts_are_explained_once()
    ensures { TextsAreExplainedOnce }
{}
