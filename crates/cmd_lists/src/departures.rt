// The command `leaves`: the places at which a run leaves the profile.
ghost use Rattle.std.specs.Prelude.{◌≡◌, true, map, All, IfOk};
ghost use Rattle.std.specs.String.{string_bytes};
ghost use Rattle.host.specs.Host.{SameFiles};
ghost use Rattle.asm80_types.specs.Program.{is_top, is_start};
ghost use Rattle.cmd_arguments.specs.ReadCommands.{listing_read};
ghost use Rattle.cmd_common.specs.Makes.{MakeGives, MakeCompletes};
ghost use Rattle.profile_leaving.specs.Leaving.{leaving};
ghost use Rattle.cmd_lists.specs.Departures.{leaves_kind, HasDepartures, AreLinesOfPlaces, AreDepartureLines, departure_line, certainty_text};

use crate::list::{Listed, list};
use asm80_types::Program80;
use cmd_arguments::Listing;
use cmd_common::{leaves_line, profile_rule, word_digits};
use flow::blocks_cut_the_program;
use host::Host;
use profile_leaving::{Certainty, Departure, leaving, places_are_left, places_ascend};
use std::alloc::{AllocError, Global};

/// Lists the places at which a run of the source of a command leaves the profile, and answers the status. The command's top is one that a
/// program area may have.
pub fn leaves<H: Host>(alloc: Global, host: &mut H, command: &Listing<'_>) -> u8
    requires { is_top command.now.top ≡ true }
    ensures gives { MakeGives (leaves_kind (listing_read command.now)) (H.state host.old) (H.state host.new) result }
    ensures files { SameFiles (H.state host.old) (H.state host.new) }
    ensures completes { MakeCompletes (leaves_kind (listing_read command.now)) (H.state host.old) (H.state host.new) result }
    ensures left { result ≡ 0 → HasDepartures (listing_read command.now) (H.state host.old) (H.state host.new) }
{
    places_are_left();
    places_ascend();
    list::<Departures, H>(alloc, host, command)
}

// The places at which a run leaves the profile.
struct Departures;

impl Listed for Departures {
    ghost use Rattle.cmd_lists.specs.Departures.{AreDepartureLines};

    ghost are_lines = { AreDepartureLines };

    fn lines(alloc: Global, program: &Program80) -> Result<Vec<String>, AllocError> {
        // (laws: an instruction starts at each place)
        places_are_left();
        blocks_cut_the_program();
        let _top = program.top();
        let found = leaving(alloc, program)?;
        lines_and_count(alloc, program, found.as_slice())
    }

    fn lines_are_one() {}
}

// The lines of a program's places, and the last line, which says how many there are.
fn lines_and_count(
    alloc: Global,
    program: &Program80,
    places: &[Departure],
) -> Result<Vec<String>, AllocError>
    requires places { places.now ≡ leaving program.now }
    requires starts { All (λ x. is_start program.now x.at ≡ true) places.now }
    ensures { IfOk result (λ lines. AreDepartureLines program.now (map string_bytes lines.items)) }
{
    let mut lines = lines_of(alloc, program, places)?;
    lines.push(leaves_line(alloc, places.len(), program.instrs().len())?)?;
    Ok(lines)
}

// The lines of places at which instructions start.
fn lines_of(
    alloc: Global,
    program: &Program80,
    places: &[Departure],
) -> Result<Vec<String>, AllocError>
    requires { All (λ x. is_start program.now x.at ≡ true) places.now }
    ensures { IfOk result (λ lines. AreLinesOfPlaces program.now places.now (map string_bytes lines.items)) }
{
    let mut lines = Vec::new(alloc);
    for place in places {
        let Some(number) = program.line_at(place.at) else {
            unreachable!()
        };
        lines.push(departure_line(alloc, place, number)?)?;
    }
    Ok(lines)
}

// The line of one of them, by the number of its instruction's line.
fn departure_line(alloc: Global, place: &Departure, number: u32) -> Result<String, AllocError>
    ensures { IfOk result (λ line. string_bytes line ≡ departure_line place.now number) }
{
    let digits = word_digits(alloc, place.at)?;
    let certainty = certainty_text(place.certainty);
    let rule = profile_rule(place.rule);
    format!(in alloc; "{digits} line {number}: {certainty}{rule}\n")
}

fn certainty_text(certainty: Certainty) -> &'static str
    ensures { result.now ≡ certainty_text certainty }
{
    match certainty {
        Certainty::Sure => "",
        Certainty::May => "may ",
    }
}
