// Outcomes as they are printed.
use cells::{Part, Place};
use std::alloc::AllocError;
use sym_run::{Exit, Outcome, Reason, Way};

fn push_place(text: &mut String, word: &str, place: Place) -> Result<(), AllocError> {
    match place {
        Place::At(at) => write!(text, "{word} {at:04x}"),
        Place::Exit => write!(text, "{word} exit"),
    }
}

fn push_port(text: &mut String, word: &str, port: u8, next: Place) -> Result<(), AllocError> {
    write!(text, "{word} {port:02x}")?;
    push_place(text, "", next)
}

fn push_way(text: &mut String, way: Way) -> Result<(), AllocError> {
    match way {
        Way::Goto(place) => push_place(text, "goto", place),
        Way::ByTerms(..) => text.push_str("by terms"),
        Way::Call(place, back) => push_call(text, place, back),
        Way::Sys(back) => push_place(text, "sys", back),
        Way::SysReturn => text.push_str("sys return"),
        Way::Boot => text.push_str("boot"),
        Way::Leave => text.push_str("leave"),
        Way::In(port, next) => push_port(text, "in", port, next),
        Way::Out(port, next) => push_port(text, "out", port, next),
    }
}

fn push_call(text: &mut String, place: Place, back: Place) -> Result<(), AllocError> {
    push_place(text, "call", place)?;
    push_place(text, "", back)
}

fn flag_name(part: Part) -> &'static str {
    match part {
        Part::S => "S",
        Part::Z => "Z",
        Part::Ac => "AC",
        Part::P => "P",
        Part::Cy => "CY",
        _ => "no flag",
    }
}

// The flag of an exit, where it is what a part holds.
fn flag_text(outcome: &Outcome, flag: sym_terms::Term) -> &'static str {
    for part in [Part::S, Part::Z, Part::P, Part::Cy] {
        if outcome.part(part) == flag {
            return flag_name(part);
        }
    }
    "no part"
}

/// Adds an exit; of two ways the flag, and where it goes for 1 and for 0.
pub fn push_exit(text: &mut String, outcome: &Outcome) -> Result<(), AllocError> {
    match outcome.exit() {
        Exit::One(way) => push_way(text, way),
        Exit::Two(flag, value, there, here) => {
            let (set, clear) = if value { (there, here) } else { (here, there) };
            push_ways(text, flag_text(outcome, flag), set, clear)
        }
    }
}

fn push_ways(text: &mut String, flag: &str, set: Way, clear: Way) -> Result<(), AllocError> {
    text.push_str(flag)?;
    text.push_str(" 1 ")?;
    push_way(text, set)?;
    text.push_str(", 0 ")?;
    push_way(text, clear)
}

/// The reason why a walk has no outcome.
pub fn reason_text(reason: Reason) -> &'static str {
    match reason {
        Reason::Missing => "missing",
        Reason::Length => "length",
        Reason::Form => "form",
        _ => "another reason",
    }
}
