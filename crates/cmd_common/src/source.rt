// The program of a source's file.
ghost use Rattle.std.specs.Prelude.{◌≡◌, true, ℕ, Bool, List, IfOk, IfErr, OnOk, map};
ghost use Rattle.host.specs.Host.{SameFaults, OnlyReads};
ghost use Rattle.asm80_types.specs.Program.{is_top};
ghost use Rattle.asm80_types.specs.Tree.{statement_of};
ghost use Rattle.asm80_text.specs.Intel.{intel_reading};
ghost use Rattle.cmd_common.specs.declared.names.InputFile.TheVariants.{First};
ghost use Rattle.cmd_common.specs.Files.{ReadStops, input_limit};
ghost use Rattle.cmd_common.specs.Sources.{ReadsSource, SourceGives, SourceLaw, StatementsGive, reading_of};

use crate::files::{SOURCE_LIMIT, read_named_into};
use crate::names::InputFile;
use crate::stop::Stop;
use asm80_text::Lines;
use asm80_types::{Program80, ReadFault, StatementReader, Stmt80};
use asm80_values::{AsmFault, assemble, source_has_one_outcome};
use host::Host;
use host_files::Sink;
use std::alloc::{AllocError, Global};
use zilog80::ZLines;

/// The program of the source in the first file of a command, by its name, in Zilog's spelling or in Intel's, for a top of the program area, a multiple of 100H
/// from 1000H to 0FF00H. The inner answer is the program, or the first refusal: of a line, else of names and values, else of the layout;
/// a command tells it once its other files are read. The outer one, that the file was not read or memory ran out, is told at once.
pub fn read_source<H: Host>(
    alloc: Global,
    host: &mut H,
    name: &str,
    zilog: bool,
    top: u16,
) -> Result<Result<Program80, Stop>, Stop>
    requires { is_top top ≡ true }
    ensures only { OnlyReads (H.state host.old) (H.state host.new) }
    ensures read { IfOk result (ReadsSource (reading_of zilog) (H.state host.old) name.now top) }
    ensures counted { OnOk result (SameFaults (H.state host.old) (H.state host.new)) }
    ensures stopped { IfErr result (ReadStops First name.now input_limit (H.state host.old) (H.state host.new)) }
{
    if zilog {
        read_source_by::<H, ZLines>(alloc, host, name, top)
    } else {
        read_source_by::<H, Lines>(alloc, host, name, top)
    }
}

/// The same by any reader.
pub fn read_source_by<H: Host, R: StatementReader>(
    alloc: Global,
    host: &mut H,
    name: &str,
    top: u16,
) -> Result<Result<Program80, Stop>, Stop>
    requires { is_top top ≡ true }
    ensures only { OnlyReads (H.state host.old) (H.state host.new) }
    ensures read { IfOk result (ReadsSource R.reading (H.state host.old) name.now top) }
    ensures counted { OnOk result (SameFaults (H.state host.old) (H.state host.new)) }
    ensures stopped { IfErr result (ReadStops First name.now input_limit (H.state host.old) (H.state host.new)) }
{
    let mut source = SourceLines {
        reader: R::new(alloc)?,
    };
    read_named_into(host, InputFile::First, name, SOURCE_LIMIT, &mut source)?;
    Ok(source.program(alloc, top)?)
}

/// The program of the source that bytes are, in Zilog's spelling or in Intel's, for a top of the program area, or its first refusal.
pub fn program_of_bytes(
    alloc: Global,
    bytes: &[u8],
    zilog: bool,
    top: u16,
) -> Result<Result<Program80, Stop>, AllocError>
    requires { is_top top ≡ true }
    ensures { IfOk result (SourceGives (reading_of zilog) bytes.now top) }
{
    if zilog {
        program_of_bytes_by::<ZLines>(alloc, bytes, top)
    } else {
        program_of_bytes_by::<Lines>(alloc, bytes, top)
    }
}

// The same by any reader.
fn program_of_bytes_by<R: StatementReader>(
    alloc: Global,
    bytes: &[u8],
    top: u16,
) -> Result<Result<Program80, Stop>, AllocError>
    requires { is_top top ≡ true }
    ensures { IfOk result (SourceGives R.reading bytes.now top) }
{
    let mut source = SourceLines {
        reader: R::new(alloc)?,
    };
    source.receive(bytes)?;
    source.program(alloc, top)
}

// The lines of a source, as far as its file was read. Of its bytes only what the reader keeps is kept.
#[derive(Drop)]
struct SourceLines<R: StatementReader> {
    reader: R,
}

impl<R: StatementReader> Sink for SourceLines<R> {
    ghost has = { λ source bytes. R.was_fed source.reader bytes };

    fn receive(&mut self, piece: &[u8]) -> Result<(), AllocError> {
        match self.reader.feed(piece) {
            Ok(()) => Ok(()),
            Err(fault) => match fault {
                // A faulty line is told at the end.
                ReadFault::Syntax(_, _) => Ok(()),
                ReadFault::Memory => Err(AllocError),
            },
        }
    }
}

impl<R: StatementReader> SourceLines<R> {
    ghost use Rattle.cmd_common.specs.Sources.{SourceGives};

    // The program of the whole source, or its first refusal.
    fn program(self, alloc: Global, top: u16) -> Result<Result<Program80, Stop>, AllocError>
        requires { is_top top ≡ true }
        ensures { IfOk result (λ outcome. (bytes : List ℕ) → R.was_fed self.reader bytes → SourceGives R.reading bytes top outcome) }
    {
        match self.reader.finish() {
            Ok(statements) => program_of(alloc, statements.as_slice(), top),
            Err(fault) => match fault {
                ReadFault::Syntax(line, rule) => Ok(Err(Stop::SourceLine(line, rule))),
                ReadFault::Memory => Err(AllocError),
            },
        }
    }
}

// The program of the statements of a source, or the first rule of names, values and layout that they break.
fn program_of(
    alloc: Global,
    statements: &[Stmt80],
    top: u16,
) -> Result<Result<Program80, Stop>, AllocError>
    requires { is_top top ≡ true }
    ensures { IfOk result (StatementsGive (map statement_of statements.now) top) }
{
    match assemble(alloc, statements, top) {
        Ok(program) => Ok(Ok(program)),
        Err(fault) => match fault {
            AsmFault::Refused(line, rule) => Ok(Err(Stop::SourceProgram(line, rule))),
            AsmFault::Memory => Err(AllocError),
        },
    }
}

/// A law: in either spelling the bytes of a source, with a top, have at most one outcome.
pub fn sources_have_one_outcome()
    ensures { (zilog : Bool) → SourceLaw (reading_of zilog) }
{
    source_has_one_outcome::<Lines>();
    source_has_one_outcome::<ZLines>();
}
