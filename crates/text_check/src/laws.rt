// A law of findings.
ghost use Rattle.text_check.specs.Findings.{OneFinding};

/// A law: of a program and lines just one thing is found.
pub fn findings_are_one()
    ensures { OneFinding }
{}
