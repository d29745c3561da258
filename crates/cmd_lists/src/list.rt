// The work of a command that lists something of a source's program: the source in, and the lines said.
ghost use Rattle.std.specs.Prelude.{◌≡◌, ◌<◌, true, map, length, All, IfOk, IfErr};
ghost use Rattle.std.specs.List.{concat};
ghost use Rattle.std.specs.String.{string_bytes};
ghost use Rattle.host.specs.Host.{SameFiles};
ghost use Rattle.asm80_types.specs.Program.{is_top};
ghost use Rattle.cmd_arguments.specs.ReadCommands.{listing_read};
ghost use Rattle.cmd_common.specs.Makes.{MakeGives, MakeCompletes, HasMade, MakeStops};
ghost use Rattle.cmd_lists.specs.Lists.{list_kind};

use asm80_types::Program80;
use cmd_arguments::Listing;
use cmd_common::{InputNames, Stop, read_source, say_report, say_stop, sources_have_one_outcome};
use host::Host;
use std::alloc::{AllocError, Global};

/// What a command lists of a program.
pub trait Listed {
    ghost use Rattle.std.specs.Prelude.{◌≡◌, ◌<◌, ℕ, List, map, length, All, IfOk};
    ghost use Rattle.std.specs.String.{string_bytes};
    ghost use Rattle.asm80_types.specs.Program.{Program, IsProgram};

    // These are its lines.
    ghost are_lines: { Program → List (List ℕ) → Type 0 };

    /// The lines of a program, none of which is empty.
    fn lines(alloc: Global, program: &Program80) -> Result<Vec<String>, AllocError>
        ensures are { IfOk result (λ lines. are_lines program.now (map string_bytes lines.items)) }
        ensures some { IfOk result (λ lines. All (λ (l : List ℕ). 0 < length l) (map string_bytes lines.items)) };

    /// A law: a program has one list of them.
    fn lines_are_one()
        ensures { (p : Program) (a b : List (List ℕ)) → are_lines p a → are_lines p b → a ≡ b };
}

/// Lists that of the source of a command, and answers the status. The command's top is one that a program area may have.
pub fn list<L: Listed, H: Host>(alloc: Global, host: &mut H, command: &Listing<'_>) -> u8
    requires { is_top command.now.top ≡ true }
    ensures gives { MakeGives (list_kind L.are_lines (listing_read command.now)) (H.state host.old) (H.state host.new) result }
    ensures files { SameFiles (H.state host.old) (H.state host.new) }
    ensures completes { MakeCompletes (list_kind L.are_lines (listing_read command.now)) (H.state host.old) (H.state host.new) result }
{
    sources_have_one_outcome();
    L::lines_are_one();
    match work::<L, H>(alloc, host, command) {
        Ok(lines) => say_report(host, lines.as_slice()),
        Err(stop) => say_stop(alloc, host, &InputNames::one(command.source), stop),
    }
}

// The lines. All memory is taken before the first of them is said.
fn work<L: Listed, H: Host>(
    alloc: Global,
    host: &mut H,
    command: &Listing<'_>,
) -> Result<Vec<String>, Stop>
    requires { is_top command.now.top ≡ true }
    ensures made { IfOk result (λ lines. HasMade (list_kind L.are_lines (listing_read command.now)) (H.state host.old) (H.state host.new) (concat (map string_bytes lines.items))) }
    ensures some { IfOk result (λ lines. All (λ line. 0 < length line) (map string_bytes lines.items)) }
    ensures stopped { IfErr result (MakeStops (list_kind L.are_lines (listing_read command.now)) (H.state host.old) (H.state host.new)) }
{
    let source = read_source(alloc, host, command.source, command.zilog, command.top)?;
    match source {
        Ok(program) => Ok(L::lines(alloc, &program)?),
        Err(stop) => Err(stop),
    }
}
