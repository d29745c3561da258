// The work of `translate`: the source in, its text out.
ghost use Rattle.std.specs.Prelude.{◌≡◌, ◌^◌, ◌<◌, true, IfOk, IfErr, OnOk, length, vec_len, option_map};
ghost use Rattle.std.specs.String.{string_bytes};
ghost use Rattle.host.specs.Host.{SameFaults, OnlyReads, OnlyWrites};
ghost use Rattle.asm80_types.specs.Program.{is_top};
ghost use Rattle.templates.specs.Style.{Style, styled};
ghost use Rattle.cmd_common.specs.declared.names.InputFile.TheVariants.{First};
ghost use Rattle.cmd_common.specs.Files.{ReadStops, input_limit};
ghost use Rattle.templates.specs.declared.translation.Mode.{Mode};
ghost use Rattle.templates.specs.Translation.{IsText, CodeFits};
ghost use Rattle.cmd_arguments.specs.ReadCommands.{translate_read};
ghost use Rattle.cmd_common.specs.declared.stop.Stop.TheVariants.{OutOfMemory};
ghost use Rattle.cmd_translate.specs.Translates.{mode_of, line_of_text, TranslateGives, Completes};
ghost use Rattle.cmd_translate.specs.TranslateWork.{TextStops, ReadsKept, WritesOut, WritesText, LosesText, Works, StopsBy};

use asm80_types::Program80;
use asm86_line_types::{Line86, code_size};
use cmd_arguments::Translate;
use cmd_common::{
    InputFile, InputNames, SOURCE_LIMIT, Stop, program_of_bytes, read_named, read_source, say_done,
    say_stop, sources_have_one_outcome, stop_of_write, translated_line, write_text,
};
use commented_text::{CommentedText, commented_texts_read_back};
use host::Host;
use host_files::write_from;
use std::alloc::{AllocError, Global};
use templates::{CoreFault, Mode};
use templates_law::{own_texts_are_same, plain_is_a_style};

// The text of a program, and the line that says how much it is.
#[derive(Drop)]
struct Text {
    lines: Vec<Line86>,
    line: String,
}

/// Translates the source of a command to its text, the plain one where the words ask for it and else the lean one, with the lines of the
/// source as comments where they ask for these; says what came of it, and answers the status. The command's top is one that a program area
/// may have.
pub fn translate<H: Host>(alloc: Global, host: &mut H, command: &Translate<'_>) -> u8
    requires { is_top command.now.top ≡ true }
    ensures gives { TranslateGives (translate_read command.now) (H.state host.old) (H.state host.new) result }
    ensures completes { Completes (translate_read command.now) (H.state host.old) (H.state host.new) result }
{
    own_texts_are_same();
    commented_texts_read_back();
    sources_have_one_outcome();
    match work(alloc, host, command) {
        Ok(line) => say_done(host, line.as_str()),
        Err(stop) => say_stop(alloc, host, &InputNames::one(command.input), stop),
    }
}

// The work up to the last line, which is the answer where the text was written. All memory is taken before the output is
// touched.
fn work<H: Host>(alloc: Global, host: &mut H, command: &Translate<'_>) -> Result<String, Stop>
    requires { is_top command.now.top ≡ true }
    ensures worked { IfOk result (λ line. Works (translate_read command.now) (H.state host.old) (H.state host.new) (string_bytes line)) }
    ensures stopped { IfErr result (StopsBy (translate_read command.now) (H.state host.old) (H.state host.new)) }
{
    let (source, kept) = read_kept(alloc, host, command)?;
    let program = source?;
    write_translation(alloc, host, command, &program, kept.as_deref())
}

// Writes the text of a program as the words ask for it; the answer is the line that says how much it is.
fn write_translation<H: Host>(
    alloc: Global,
    host: &mut H,
    command: &Translate<'_>,
    program: &Program80,
    kept: Option<&[u8]>,
) -> Result<String, Stop>
    ensures written { IfOk result (λ line. WritesText (mode_of command.now.plain) (option_map (λ bytes. bytes.now) kept.entry) program.now command.now.output.now (H.state host.old) (H.state host.new) (string_bytes line)) }
    ensures stopped { IfErr result (LosesText (mode_of command.now.plain) (option_map (λ bytes. bytes.now) kept.entry) program.now command.now.output.now (H.state host.old) (H.state host.new)) }
{
    plain_is_a_style();
    let text = text_of_program(alloc, program, mode_of(command.plain))?;
    write_kept(host, command.output, program, &text.lines, kept)?;
    Ok(text.line)
}

// The program of the source, or its refusal; and the source's bytes where its lines are to stand in the text.
fn read_kept<H: Host>(
    alloc: Global,
    host: &mut H,
    command: &Translate<'_>,
) -> Result<(Result<Program80, Stop>, Option<Vec<u8>>), Stop>
    requires { is_top command.now.top ≡ true }
    ensures only { OnlyReads (H.state host.old) (H.state host.new) }
    ensures read { IfOk result (λ r. ReadsKept (translate_read command.now) (H.state host.old) r.0 (option_map (λ v. v.items) r.1)) }
    ensures counted { OnOk result (SameFaults (H.state host.old) (H.state host.new)) }
    ensures stopped { IfErr result (ReadStops First command.now.input.now input_limit (H.state host.old) (H.state host.new)) }
{
    if command.comments {
        return read_with_bytes(alloc, host, command);
    }
    let source = read_source(alloc, host, command.input, command.zilog, command.top)?;
    Ok((source, None))
}

// The same where they are: the bytes are kept whole.
fn read_with_bytes<H: Host>(
    alloc: Global,
    host: &mut H,
    command: &Translate<'_>,
) -> Result<(Result<Program80, Stop>, Option<Vec<u8>>), Stop>
    requires top { is_top command.now.top ≡ true }
    requires kept { command.now.comments ≡ true }
    ensures only { OnlyReads (H.state host.old) (H.state host.new) }
    ensures read { IfOk result (λ r. ReadsKept (translate_read command.now) (H.state host.old) r.0 (option_map (λ v. v.items) r.1)) }
    ensures counted { OnOk result (SameFaults (H.state host.old) (H.state host.new)) }
    ensures stopped { IfErr result (ReadStops First command.now.input.now input_limit (H.state host.old) (H.state host.new)) }
{
    let bytes = read_named(alloc, host, InputFile::First, command.input, SOURCE_LIMIT)?;
    let source = program_of_bytes(alloc, &bytes, command.zilog, command.top)?;
    Ok((source, Some(bytes)))
}

// Writes the text of a program's lines, with the lines of the source among them where its bytes are kept. It takes no memory.
fn write_kept<H: Host>(
    host: &mut H,
    name: &str,
    program: &Program80,
    lines: &[Line86],
    kept: Option<&[u8]>,
) -> Result<(), Stop>
    ensures only { OnlyWrites (H.state host.old) (H.state host.new) name.now }
    ensures wrote { (s : Style) → lines.now ≡ styled s program.now → WritesOut (option_map (λ bytes. bytes.now) kept.entry) program.now lines.now name.now (H.state host.old) (H.state host.new) result }
    ensures counted { OnOk result (SameFaults (H.state host.old) (H.state host.new)) }
{
    let Some(source) = kept else {
        return write_text(host, name, lines);
    };
    match write_from(host, name, &mut CommentedText::new(program, lines, source)) {
        Ok(()) => Ok(()),
        Err(fault) => Err(stop_of_write(fault)),
    }
}

// The mode that the words ask for.
fn mode_of(plain: bool) -> Mode
    ensures { result ≡ mode_of plain }
{
    if plain { Mode::Plain } else { Mode::Lean }
}

// The text of a program, with its line.
fn text_of_program(alloc: Global, program: &Program80, mode: Mode) -> Result<Text, Stop>
    ensures text { IfOk result (λ t. IsText mode program.now t.lines.items) }
    ensures fits { IfOk result (λ t. CodeFits t.lines.items) }
    ensures line { IfOk result (λ t. string_bytes t.line ≡ line_of_text program.now t.lines.items) }
    ensures stopped { IfErr result (TextStops mode program.now) }
{
    let lines = lines_of(alloc, program, mode)?;
    let line = line_of(alloc, program, lines.as_slice())?;
    Ok(Text { lines, line })
}

// The lines of the text, whose code fits.
fn lines_of(alloc: Global, program: &Program80, mode: Mode) -> Result<Vec<Line86>, Stop>
    ensures text { IfOk result (λ lines. IsText mode program.now lines.items) }
    ensures fits { IfOk result (λ lines. CodeFits lines.items) }
    ensures few { IfOk result (λ lines. vec_len lines < 2 ^ 20) }
    ensures stopped { IfErr result (TextStops mode program.now) }
{
    match templates::translate(alloc, program, mode) {
        Ok(lines) => Ok(lines),
        Err(CoreFault::CodeTooLarge(size)) => Err(Stop::CodeTooLarge(size)),
        Err(CoreFault::Memory) => Err(Stop::OutOfMemory),
    }
}

// The line of a program's text.
fn line_of(alloc: Global, program: &Program80, lines: &[Line86]) -> Result<String, AllocError>
    requires few { length lines.now < 2 ^ 20 }
    ensures { IfOk result (λ line. string_bytes line ≡ line_of_text program.now lines.now) }
{
    let instructions = program.instrs().len();
    let cells = program.cells().len();
    translated_line(alloc, instructions, cells, code_size(lines))
}
