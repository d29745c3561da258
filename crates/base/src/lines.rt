// How a text is cut into lines.
ghost use Rattle.std.specs.Prelude.{◌≡◌};
ghost use Rattle.base.specs.Cut.{without_cr};

/// A line that LF ended, without the CR at its end.
pub fn without_cr(line: &[u8]) -> &[u8]
    ensures { result.now ≡ without_cr line.now }
{
    match line {
        [front @ .., b'\r'] => front,
        _ => line,
    }
}
