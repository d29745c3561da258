// The place of a block at which a run leaves the profile.
ghost use Rattle.std.specs.Prelude.{◌≡◌, ◌<◌, ◌≤◌, ◌-◌, []};
ghost use Rattle.std.specs.List.{cons_option};
ghost use Rattle.asm80_types.specs.Program.{instr_at};
ghost use Rattle.flow.specs.Blocks.{IsStraight};
ghost use Rattle.sym_block_def.specs.Block80.{MayRun};
ghost use Rattle.profile_leaving.specs.Leaving.{is_unlisted, asking, going_on, known_function, leaving_where, leaving_from};

use crate::departure::{Certainty, Departure};
use asm80_types::Program80;
use cells::{Part, Rule};
use dialogue::row_of;
use flow::place_after;
use i80::{Goal, Instr80, length};
use sym_run::Work;

/// The place of a block of so many instructions: at its last one, if at any.
pub fn place_of(work: &mut Work, program: &Program80, leader: u16, count: u32) -> Option<Departure>
    requires straight { IsStraight program.now leader count }
    requires some { 0 < count }
    requires few { count ≤ 16 }
    ensures { leaving_from program.now leader 0 count ≡ cons_option result [] }
{
    let function = known_function(work, program, leader, count - 1);
    leaving_where(program, place_after(program, leader, count - 1), function)
}

// The number that is known to be in C after so many instructions of a block.
fn known_function(work: &mut Work, program: &Program80, leader: u16, before: u32) -> Option<u16>
    requires { 0 < before → MayRun program.now leader before }
    ensures { result ≡ known_function program.now leader before }
{
    if before == 0 {
        return None;
    }
    work.reset();
    match work.run80(program, leader, before) {
        Some(()) => {}
        None => unreachable!(),
    }
    let held = work.first().part(Part::C);
    work.number_of(held)
}

// Whether a run leaves at an address, where that function is known. P9 is said before P1.
fn leaving_where(program: &Program80, at: u16, function: Option<u16>) -> Option<Departure>
    ensures { result ≡ leaving_where program.now at function (instr_at program.now at) }
{
    let instr = program.instr_at(at)?;
    if is_unlisted(function) {
        if let Some(certainty) = asking(instr) {
            return Some(Departure {
                at,
                rule: Rule::P9,
                certainty,
            });
        }
    }
    if program.instr_at(at + length(instr)).is_some() {
        return None;
    }
    let certainty = going_on(function, instr)?;
    Some(Departure {
        at,
        rule: Rule::P1,
        certainty,
    })
}

// Whether a known function is none of the call table.
#[tactic(auto, using(crate::proofs::Unlisted::past_table))]
fn is_unlisted(function: Option<u16>) -> bool
    ensures { result ≡ is_unlisted function }
{
    let Some(number) = function else {
        return false;
    };
    match u8::try_from(number) {
        Ok(function) => row_of(function).is_none(),
        Err(_) => true,
    }
}

// Whether an instruction calls the system.
fn asking(instr: Instr80) -> Option<Certainty>
    ensures { result ≡ asking instr }
{
    match instr {
        Instr80::Call(Goal::Bdos) | Instr80::Jmp(Goal::Bdos) => Some(Certainty::Sure),
        Instr80::Cif(_, Goal::Bdos) | Instr80::Jif(_, Goal::Bdos) => Some(Certainty::May),
        _ => None,
    }
}

// Whether an instruction looks at the next place.
fn going_on(function: Option<u16>, instr: Instr80) -> Option<Certainty>
    ensures { result ≡ going_on function instr }
{
    match instr {
        Instr80::Call(Goal::Bdos) => match function {
            None => Some(Certainty::May),
            Some(0) => None,
            Some(_) => Some(Certainty::Sure),
        },
        Instr80::Call(Goal::At(_)) => Some(Certainty::Sure),
        Instr80::Call(Goal::Boot)
        | Instr80::Jmp(_)
        | Instr80::Jif(_, _)
        | Instr80::Cif(_, _)
        | Instr80::Pchl
        | Instr80::Ret
        | Instr80::Rif(_)
        | Instr80::Rst0 => None,
        _ => Some(Certainty::Sure),
    }
}
