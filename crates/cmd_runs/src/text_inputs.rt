// What a text's run has before the run.
ghost use Rattle.std.specs.Prelude.{◌≡◌, ◌⊎◌, ℕ, List, ◌^◌, ◌<◌, true, IfOk, MatchResult, length};
ghost use Rattle.i86.specs.Decode.{HasReader};
ghost use Rattle.asm86_line_types.specs.Order.{at_start, in_order};
ghost use Rattle.asm86_line_types.specs.Image.{statements};
ghost use Rattle.asm86.specs.Images.{HasImage};
ghost use Rattle.cmd_common.specs.declared.stop.Stop.TheVariants.{OutOfMemory};
ghost use Rattle.cmd_common.specs.Texts.{BytesGiveLines, TextIsRefused};

use asm86::Image86;
use asm86_line_types::Line86;
use cmd_common::{LoadedText, Stop};
use std::alloc::Global;

/// The image of a text's lines, which are let go; or why the text has none.
pub fn read_image(alloc: Global, text: Result<Vec<Line86>, Stop>) -> Result<Image86, Stop>
    requires order { IfOk text (λ lines. in_order at_start (statements lines.items) ≡ true) }
    requires few { IfOk text (λ lines. length lines.items < 2 ^ 28) }
    ensures { (bytes : List ℕ) → BytesGiveLines bytes text
        → MatchResult result (λ image. HasImage bytes image × HasReader image.code) (λ stop. TextIsRefused bytes stop ⊎ (stop ≡ OutOfMemory)) }
{
    let lines = text?;
    let loaded = LoadedText::of(alloc, lines)?;
    Ok(loaded.into_image())
}
