// The lines of a text's file, and their image.
ghost use Rattle.std.specs.Prelude.{◌≡◌, ◌<◌, ◌^◌, true, ℕ, List, length, IfOk, IfErr, OnOk};
ghost use Rattle.host.specs.Host.{SameFaults, OnlyReads};
ghost use Rattle.asm86_line_types.specs.Image.{statements};
ghost use Rattle.asm86_line_types.specs.Order.{at_start, in_order};
ghost use Rattle.cmd_common.specs.Files.{ReadStops, text_limit};
ghost use Rattle.i86.specs.Decode.{HasReader};
ghost use Rattle.cmd_common.specs.Texts.{ReadsTextFile, HasOneImage, ImageStops, stop_of_image};

use crate::files::{TEXT_LIMIT, read_named_into};
use crate::names::InputFile;
use crate::stop::Stop;
use asm86::{Image86, ImageFault, Line86, Text86, TextFault, image};
use host::Host;
use host_files::Sink;
use i86::code_has_one_reader;
use std::alloc::{AllocError, Global};

/// The lines of the text in a file of a command, by its name. The inner answer is the lines, or the first rule that one of them breaks; a
/// command tells it once its other files are read. The outer one, that the file was not read or memory ran out, is told at once.
pub fn read_text<H: Host>(
    alloc: Global,
    host: &mut H,
    file: InputFile,
    name: &str,
) -> Result<Result<Vec<Line86>, Stop>, Stop>
    ensures only { OnlyReads (H.state host.old) (H.state host.new) }
    ensures read { IfOk result (ReadsTextFile (H.state host.old) name.now) }
    ensures in_order { IfOk result (λ text. IfOk text (λ lines. in_order at_start (statements lines.items) ≡ true)) }
    ensures few { IfOk result (λ text. IfOk text (λ lines. length lines.items < 2 ^ 28)) }
    ensures counted { OnOk result (SameFaults (H.state host.old) (H.state host.new)) }
    ensures stopped { IfErr result (ReadStops file name.now text_limit (H.state host.old) (H.state host.new)) }
{
    let mut text = TextLines {
        reader: Text86::new(alloc)?,
    };
    read_named_into(host, file, name, TEXT_LIMIT, &mut text)?;
    text.lines()
}

// The lines of a text, as far as its file was read. Of its bytes only the line that is not complete yet is kept.
#[derive(Drop)]
struct TextLines {
    reader: Text86,
}

impl Sink for TextLines {
    ghost use Rattle.asm86.specs.Reader.{AfterText};

    ghost has = { λ text bytes. AfterText bytes text.reader };

    fn receive(&mut self, piece: &[u8]) -> Result<(), AllocError> {
        match self.reader.feed(piece) {
            Ok(()) => Ok(()),
            Err(fault) => match fault {
                // A faulty line is told at the end.
                TextFault::Line(_, _) => Ok(()),
                TextFault::Memory => Err(AllocError),
            },
        }
    }
}

impl TextLines {
    ghost use Rattle.asm86.specs.Reader.{AfterText};
    ghost use Rattle.cmd_common.specs.declared.stop.Stop.TheVariants.{OutOfMemory};
    ghost use Rattle.cmd_common.specs.Texts.{BytesGiveLines};

    // The lines of the whole text, or the first rule that one of them breaks.
    fn lines(self) -> Result<Result<Vec<Line86>, Stop>, Stop>
        ensures read { IfOk result (λ outcome. (bytes : List ℕ) → AfterText bytes self.reader → BytesGiveLines bytes outcome) }
        ensures in_order { IfOk result (λ outcome. IfOk outcome (λ lines. in_order at_start (statements lines.items) ≡ true)) }
        ensures few { IfOk result (λ outcome. IfOk outcome (λ lines. length lines.items < 2 ^ 28)) }
        ensures stopped { IfErr result (λ stop. stop ≡ OutOfMemory) }
    {
        match self.reader.finish() {
            Ok(lines) => Ok(Ok(lines)),
            Err(TextFault::Line(line, rule)) => Ok(Err(Stop::TextLine(line, rule))),
            Err(TextFault::Memory) => Err(Stop::OutOfMemory),
        }
    }
}

/// A text that was loaded: its lines with their image.
pub struct LoadedText {
    /// Fewer than 2^28 lines, in the order of the text.
    pub lines: Vec<Line86>,
    pub image: Image86,
}

// Written out, so that letting one go is one call wherever it is done.
impl Drop for LoadedText {
    fn drop(self) {
        let LoadedText {
            lines: _lines,
            image: _image,
        } = self;
    }
}

impl LoadedText {
    /// The lines of a text, of which there are fewer than 2^28, with the image that they have, or why they have none.
    pub fn of(alloc: Global, lines: Vec<Line86>) -> Result<LoadedText, Stop>
        requires order { in_order at_start (statements lines.items) ≡ true }
        requires few { length lines.items < 2 ^ 28 }
        ensures lines { IfOk result (λ text. text.lines.items ≡ lines.items) }
        ensures image { IfOk result (λ text. HasOneImage lines.items text.image) }
        ensures stopped { IfErr result (ImageStops lines.items) }
    {
        match image(alloc, lines.as_slice()) {
            Ok(image) => {
                bytes_have_one_reader(image.code());
                Ok(LoadedText { lines, image })
            }
            Err(fault) => Err(stop_of_image(fault)),
        }
    }

    /// The lines alone.
    pub fn into_lines(self) -> Vec<Line86>
        ensures { result ≡ self.lines }
    {
        let LoadedText {
            lines,
            image: _image,
        } = self;
        lines
    }

    /// The image alone.
    pub fn into_image(self) -> Image86
        ensures { result ≡ self.image }
    {
        let LoadedText {
            lines: _lines,
            image,
        } = self;
        image
    }
}

// A law: bytes are a code with one reader.
fn bytes_have_one_reader(code: &[u8])
    ensures { HasReader code.now }
{
    code_has_one_reader();
}

// What it is to a command that lines have no image.
fn stop_of_image(fault: ImageFault) -> Stop
    ensures { result ≡ stop_of_image fault }
{
    match fault {
        ImageFault::Line(line, rule) => Stop::TextLine(line, rule),
        ImageFault::CodeTooLarge(size) => Stop::CodeTooLarge(size),
        ImageFault::Short(line) => Stop::ShortJump(line),
        ImageFault::Memory => Stop::OutOfMemory,
    }
}
