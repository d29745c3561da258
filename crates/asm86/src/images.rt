// The image of an ASM-86 text (CP/M-86 Programmer's Guide, "ASM-86").
ghost use Rattle.std.specs.Prelude.{◌≡◌, ◌^◌, ◌<◌, ◌⊎◌, true, length, MatchOption, MatchResult};
ghost use Rattle.asm86_line_types.specs.Order.{at_start, in_order};
ghost use Rattle.asm86_line_types.specs.Image.{Assembles, IsDefinedOnce, IsImage, image_of, labels_from, statements, offset_in};
ghost use Rattle.asm86.specs.declared.fault.ImageFault.{ImageFault};
ghost use Rattle.asm86.specs.Places.{IsChecked};
ghost use Rattle.asm86.specs.Refusals.{ImageRefused};

use crate::code::{code_bytes, first_short};
use crate::data::data_cells;
use crate::fault::ImageFault;
use crate::layout::{first_undefined, offsets_of};
use crate::offsets::Offsets;
use asm86_line_types::{Label, Line86, TextRule, code_size};
use std::alloc::Global;
use std::marker::Model;

/// How many bytes of code a text has at most, so that the offset behind the last is a word.
const MOST_CODE: usize = 65_535;

/// The code of a text, its data cells in ascending order, and the offset of each label.
pub struct Image86 {
    code: Vec<u8>,
    cells: Vec<(u16, u8)>,
    labels: Offsets,
}

// Written out, so that letting one go is one call wherever it is done.
impl Drop for Image86 {
    fn drop(self) {
        let Image86 {
            code: _code,
            cells: _cells,
            labels: _labels,
        } = self;
    }
}

impl Model for Image86 {
    ghost use Rattle.std.specs.Prelude.{◌<◌, length};
    ghost use Rattle.asm86_line_types.specs.declared.line.Label.{Label};
    ghost use Rattle.asm86_line_types.specs.Image.{Image};
    ghost use Rattle.asm86.specs.Places.{label_place};

    ghost Value = { Image };

    ghost view = { λ i. record { code = i.code.items; cells = i.cells.items; labels = i.labels } };

    ghost invariant = { λ i. (length i.code.items < 0x10000) × ((l : Label) → label_place i.labels l < 0x10000) };
}

impl Image86 {
    /// The bytes of the code, from offset 0 up.
    pub fn code(&self) -> &[u8]
        ensures value { result.now ≡ self.now.code }
        ensures small { length result.now < 0x10000 }
    {
        self.code.as_slice()
    }

    /// The address and the byte of each data cell, in ascending order of addresses.
    pub fn cells(&self) -> &[(u16, u8)]
        ensures { result.now ≡ self.now.cells }
    {
        self.cells.as_slice()
    }

    /// The offset of a label in the code; None where the text has no such label.
    pub fn offset(&self, label: Label) -> Option<u16>
        ensures { result ≡ offset_in self.now.labels label }
    {
        Some(self.labels.get(label)? as u16)
    }
}

/// The image of a text's statements, which stand in order and need no END. What is told is the first M3; else the first M4;
/// else a code of more than 65,535 bytes; else the first short jump that does not reach.
pub fn image(alloc: Global, lines: &[Line86]) -> Result<Image86, ImageFault>
    requires order { in_order at_start (statements lines.now) ≡ true }
    requires few { length lines.now < 2 ^ 28 }
    ensures answer { MatchResult result (IsImage lines.now) (λ fault. (fault ≡ ImageFault.Memory) ⊎ ImageRefused lines.now fault) }
    ensures assembled { Assembles lines.now → MatchResult result (λ image. image ≡ image_of lines.now) (λ fault. fault ≡ ImageFault.Memory) }
    ensures refused { (fault : ImageFault) → ImageRefused lines.now fault → (result ≡ Err fault) ⊎ (result ≡ Err ImageFault.Memory) }
{
    let labels = checked_labels(alloc, lines)?;
    let code = code_bytes(alloc, &labels, lines)?;
    let cells = data_cells(alloc, &labels, lines)?;
    Ok(Image86 {
        code,
        cells,
        labels,
    })
}

// The labels of a text that has an image.
fn checked_labels(alloc: Global, lines: &[Line86]) -> Result<Offsets, ImageFault>
    requires { length lines.now < 2 ^ 28 }
    ensures { MatchResult result (IsChecked lines.now) (λ fault. (fault ≡ ImageFault.Memory) ⊎ ImageRefused lines.now fault) }
{
    let labels = offsets_of(alloc, lines)?;
    match refusal(&labels, lines) {
        Some(fault) => Err(fault),
        None => Ok(labels),
    }
}

// Why a text that defines each of its labels once has no image.
fn refusal(labels: &Offsets, lines: &[Line86]) -> Option<ImageFault>
    requires few { length lines.now < 2 ^ 28 }
    requires found { labels.now ≡ labels_from 0 (statements lines.now) }
    requires once { IsDefinedOnce (statements lines.now) }
    ensures { MatchOption result (IsChecked lines.now labels.now) (ImageRefused lines.now) }
{
    if let Some(line) = first_undefined(labels, lines) {
        return Some(ImageFault::Line(line, TextRule::M4));
    }
    let size = code_size(lines);
    if size > MOST_CODE {
        return Some(ImageFault::CodeTooLarge(size as u32));
    }
    if let Some(line) = first_short(labels, lines) {
        return Some(ImageFault::Short(line));
    }
    None
}
