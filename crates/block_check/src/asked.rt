// The parts that are asked of what stands behind a block.

ghost use Rattle.std.specs.Prelude.{◌≡◌};
ghost use Rattle.cells.specs.Parts.{has, union};
ghost use Rattle.sym_block_def.specs.BlockMatch.{parts_asked};
ghost use Rattle.block_check.specs.Kept.{wanted_parts, lost_of};

use cells::{Keep, Part};

/// Parts that are kept. A stands apart from the others, since an IN writes it and an OUT reads it.
#[derive(Clone, Copy)]
pub struct Wanted {
    pub a: bool,
    pub others: Keep,
}

/// All the parts of a set.
pub fn all_of(keep: Keep) -> Wanted
    ensures { wanted_parts result ≡ keep }
{
    Wanted {
        a: keep.has(Part::A),
        others: keep,
    }
}

/// C, D and E, by which the system is asked.
pub fn of_system() -> Wanted
    ensures { wanted_parts result ≡ parts_asked }
{
    let keep = Keep::none().with(Part::C).with(Part::D).with(Part::E);
    all_of(keep)
}

/// The parts of both.
pub fn both(one: Wanted, other: Wanted) -> Wanted
    ensures { wanted_parts result ≡ union (wanted_parts one) (wanted_parts other) }
{
    Wanted {
        a: one.a || other.a,
        others: one.others.join(other.others),
    }
}

/// Whether a part is among them.
pub fn wants(wanted: &Wanted, part: Part) -> bool
    ensures { result ≡ has (wanted_parts wanted.now) part }
{
    match part {
        Part::A => wanted.a,
        _ => wanted.others.has(part),
    }
}

/// Whether a direct call loses a part of those that are kept where it goes on.
pub fn loses(back: Keep, part: Part) -> bool
    ensures { result ≡ has (lost_of back) part }
{
    match part {
        Part::B | Part::L => back.has(part),
        _ => false,
    }
}
