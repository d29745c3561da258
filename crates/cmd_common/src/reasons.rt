// The names of reasons why a block is not shown.
ghost use Rattle.std.specs.Prelude.{◌≡◌};
ghost use Rattle.cmd_common.specs.Lines.{name_of_kept, reason_name};

use cells::Part;
use sym_block_def::Reason;

/// A reason.
pub fn reason_name(reason: Reason) -> &'static str
    ensures { result.now ≡ reason_name reason }
{
    match reason {
        Reason::Opening => "opening",
        Reason::Runtime => "runtime",
        Reason::DataPart => "data",
        Reason::Missing => "missing",
        Reason::Length => "length",
        Reason::Form => "form",
        Reason::Actions => "actions",
        Reason::Exits => "exits",
        Reason::Kept(part) => kept_name(part),
        Reason::KeptSp => "kept sp",
    }
}

// A part that is kept and does not agree.
fn kept_name(part: Part) -> &'static str
    ensures { result.now ≡ name_of_kept part }
{
    match part {
        Part::A => "kept a",
        Part::B => "kept b",
        Part::C => "kept c",
        Part::D => "kept d",
        Part::E => "kept e",
        Part::H => "kept h",
        Part::L => "kept l",
        Part::S => "kept s",
        Part::Z => "kept z",
        Part::Ac => "kept ac",
        Part::P => "kept p",
        Part::Cy => "kept cy",
    }
}
