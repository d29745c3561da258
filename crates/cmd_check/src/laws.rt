// A law of checks.

ghost use Rattle.cmd_check.specs.Laws.{CheckLaws};

use asm86::{images_exclude_refusals, text_has_one_reading};
use cmd_common::sources_have_one_outcome;
use xlt_core::findings_are_one;

/// A law: a source has one outcome, a text is read as one thing and refused by one fault, and of a program and lines one thing is found.
pub fn checks_have_one_outcome()
    ensures { CheckLaws }
{
    sources_have_one_outcome();
    text_has_one_reading();
    images_exclude_refusals();
    findings_are_one();
}
