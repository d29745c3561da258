// The command `sample`: writes a made source of 1 to 500 routines, for trials, and says the counts of it, of its program and of its lean
// text; and the proof that it is a program, for every size.
//
// Proved: clause `gives` of `sample` (`SampleGives`): exactly the made source of so many routines is written, and the counts that are said
// are those of it (`IsSampleLine`); clause `completes` (`Completes`): where no call of the host fails and memory suffices the status is 0,
// so the source is never refused and the code never too large. `sample_text` is exactly the text of the made source and `line_count` its
// number of lines. Laws: `sample_is_read` (the text is read as its statements, without a fault), `sample_is_accepted` (no rule refuses
// them), `sample_is_a_program` (so they are a program) and `sample_code_fits` (the code of its lean text has at most 65,535 bytes).
#![tactic(auto)]

ghost use Rattle.std.specs.Prelude.{◌≡◌, ◌≤◌, IfOk, length, map, ◌∷◌, []};
ghost use Rattle.std.specs.List.{flat_map};
ghost use Rattle.std.specs.String.{string_bytes};
ghost use Rattle.cmd_sample.specs.Laws.{SampleIsRead, SampleIsAccepted, SampleIsProgram, SampleCodeFits};
ghost use Rattle.cmd_sample.specs.Sample.{call, counting, routine, sample_lines, sample_text, up_to, writes_letter};
ghost use Rattle.cmd_sample.specs.Written.{text_of_source};

mod counts;
mod making;
mod sampling;

use asm80_text::Intel;
use asm80_values::statements_without_a_refusal_are_a_program;
pub use sampling::sample;
use std::alloc::{AllocError, Global};

/// A law: the text of the made source is read as its statements, with no fault.
pub fn sample_is_read()
    ensures { SampleIsRead }
{}

/// A law: the statements of the made source are accepted.
pub fn sample_is_accepted()
    ensures { SampleIsAccepted }
{}

/// A law: the statements of the made source are a program.
pub fn sample_is_a_program()
    ensures { SampleIsProgram }
{
    sample_is_accepted();
    statements_without_a_refusal_are_a_program::<Intel>();
}

/// A law: the code of the made source's lean text has at most 65,535 bytes.
pub fn sample_code_fits()
    ensures { SampleCodeFits }
{}

/// How many lines the made source of some routines has.
pub fn line_count(routines: u32) -> u32
    requires { routines ≤ 500 }
    ensures { result ≡ length (sample_lines routines) }
{
    3 + 12 * routines
}

/// The text of the made source of some routines.
pub fn sample_text(alloc: Global, routines: u32) -> Result<Vec<u8>, AllocError>
    requires { routines ≤ 500 }
    ensures { IfOk result (λ v. v.items ≡ sample_text routines) }
{
    let calls = all_calls(alloc, routines)?;
    let bodies = all_routines(alloc, routines)?;
    let text = format!(in alloc; "\tORG\t100H\n{calls}\tJMP\t0\n{bodies}\tEND\n")?;
    Ok(text.into_bytes())
}

// The calls of the routines, in their order.
fn all_calls(alloc: Global, routines: u32) -> Result<String, AllocError>
    requires { routines ≤ 500 }
    ensures { IfOk result (λ text. string_bytes text ≡ text_of_source (map call (up_to routines))) }
{
    let mut text = String::new(alloc);
    for number in 1..=routines {
        text.push_str(call(alloc, number)?.as_str())?;
    }
    Ok(text)
}

// The routines, in their order.
fn all_routines(alloc: Global, routines: u32) -> Result<String, AllocError>
    requires { routines ≤ 500 }
    ensures { IfOk result (λ text. string_bytes text ≡ text_of_source (flat_map routine (up_to routines))) }
{
    let mut text = String::new(alloc);
    for number in 1..=routines {
        text.push_str(routine(alloc, number)?.as_str())?;
    }
    Ok(text)
}

// The call of a routine.
fn call(alloc: Global, number: u32) -> Result<String, AllocError>
    ensures { IfOk result (λ text. string_bytes text ≡ text_of_source (call number ∷ [])) }
{
    format!(in alloc; "\tCALL\tR{number}\n")
}

// A routine.
fn routine(alloc: Global, number: u32) -> Result<String, AllocError>
    ensures { IfOk result (λ text. string_bytes text ≡ text_of_source (routine number)) }
{
    let mut text = counting(alloc, number)?;
    text.push_str(writing(alloc, number)?.as_str())?;
    Ok(text)
}

// Its loop.
fn counting(alloc: Global, number: u32) -> Result<String, AllocError>
    ensures { IfOk result (λ text. string_bytes text ≡ text_of_source (counting number)) }
{
    let turns = number % 5 + 1;
    format!(in alloc;
        "R{number}:\tLXI\tH,W{number}\n\tMVI\tB,{turns}\nQ{number}:\tINX\tH\n\tDCR\tB\n\tINX\tH\n\tJNZ\tQ{number}\n"
    )
}

// Its letter and its byte.
fn writing(alloc: Global, number: u32) -> Result<String, AllocError>
    ensures { IfOk result (λ text. string_bytes text ≡ text_of_source (writes_letter number)) }
{
    let letter = 65 + number % 26;
    let byte = number % 256;
    format!(in alloc; "\tDAD\tH\n\tMVI\tE,{letter}\n\tMVI\tC,2\n\tJMP\t5\nW{number}:\tDB\t{byte}\n")
}
