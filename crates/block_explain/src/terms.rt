// Terms in words.
ghost use Rattle.std.specs.Prelude.{◌≡◌, ◌++◌, codes, suc, List, IfOk};
ghost use Rattle.std.specs.Fmt.{decimal};
ghost use Rattle.std.specs.String.{string_bytes};
ghost use Rattle.sym_terms.specs.Heads.{operands};
ghost use Rattle.sym_terms.specs.Trees.{Entry, tree_in, tree_of_head, entries_of, IsGiven, AreGiven};
ghost use Rattle.block_explain.specs.Names.{half_words, label_words};
ghost use Rattle.block_explain.specs.Words.{two_words, three_words, in_brackets, alu_words, turn_words, words, words_to};

use crate::names::{
    flag_words, half_words, label_words, number_words, part_words, sign_words, takes_carry,
};
use cells::Place;
use i80::Op;
use std::alloc::{AllocError, Global};
use sym_terms::{Head, Term, Terms};

/// How many operations of a term may stand in one another.
const DEPTH: u8 = 7;

/// A term in words.
pub fn term_words(alloc: Global, terms: &Terms, term: Term) -> Result<String, AllocError>
    requires { IsGiven terms.now term }
    ensures { IfOk result (λ text. string_bytes text ≡ words (tree_in terms.now term)) }
{
    words_to(alloc, terms, term, DEPTH)
}

// A term, of whose operations so many may stand in one another.
#[cycle(words)]
fn words_to(alloc: Global, terms: &Terms, term: Term, depth: u8) -> Result<String, AllocError>
    requires { IsGiven terms.now term }
    ensures { IfOk result (λ text. string_bytes text ≡ words_to depth (tree_in terms.now term)) }
{
    let head = terms.head(term);
    if depth == 0 {
        shallow_words(alloc, head)
    } else {
        deep_words(alloc, terms, head, depth - 1)
    }
}

// A term that has no operands. Of another one no operation is said.
fn shallow_words(alloc: Global, head: Head) -> Result<String, AllocError>
    ensures { (es : List Entry) → IfOk result (λ text. string_bytes text ≡ words_to 0 (tree_of_head es head)) }
{
    match head {
        Head::Num(n) => number_words(alloc, n),
        Head::Start(part) => String::from_str(alloc, part_words(part)),
        Head::StartSp => String::from_str(alloc, "SP"),
        Head::Loaded8(index) => load_words(alloc, "byte", index),
        Head::Loaded16(index) => load_words(alloc, "word", index),
        Head::Code(place, high) => code_words(alloc, place, high),
        Head::Unknown => String::from_str(alloc, "open"),
        _ => String::from_str(alloc, ".."),
    }
}

// A load, counted from 1.
fn load_words(alloc: Global, what: &str, index: u16) -> Result<String, AllocError>
    ensures { IfOk result (λ text. string_bytes text ≡ what.now ++ (codes " " ++ decimal (suc index))) }
{
    let number = u32::from(index) + 1;
    format!(in alloc; "{what} {number}")
}

// A half of a code address.
fn code_words(alloc: Global, place: Place, high: bool) -> Result<String, AllocError>
    ensures { IfOk result (λ text. string_bytes text ≡ half_words high ++ label_words place) }
{
    let half = half_words(high);
    let label = label_words(alloc, place)?;
    format!(in alloc; "{half}{label}")
}

// A term of this head, whose operands are said to a depth.
#[cycle(words)]
fn deep_words(alloc: Global, terms: &Terms, head: Head, depth: u8) -> Result<String, AllocError>
    requires { AreGiven terms.now (operands head) }
    ensures { IfOk result (λ text. string_bytes text ≡ words_to (suc depth) (tree_of_head (entries_of terms.now.nodes) head)) }
{
    match head {
        Head::Alu(op, a, b, carry) => alu_words(alloc, terms, op, a, b, carry, depth),
        Head::Flag(part, of) => one_words(alloc, terms, flag_words(part), " of ", of, depth),
        Head::Sum16(a, b) => {
            let sum = two_words(alloc, terms, " + ", a, b, depth)?;
            in_brackets(alloc, "", sum.as_str())
        }
        Head::High(word) => one_words(alloc, terms, half_words(true), "", word, depth),
        Head::Low(word) => one_words(alloc, terms, half_words(false), "", word, depth),
        Head::Join(high, low) => two_words(alloc, terms, ":", high, low, depth),
        Head::FlagByte(..) => String::from_str(alloc, "flags"),
        Head::Bit(byte, part) => one_words(alloc, terms, part_words(part), " in ", byte, depth),
        Head::Turn(kind, a, carry) => turn_words(alloc, terms, kind, a, carry, depth),
        Head::Turned(carry) => one_words(alloc, terms, "turned", " ", carry, depth),
        Head::Adjust(a, ac, cy) => {
            let operands = three_words(alloc, terms, ", ", a, ac, cy, depth)?;
            in_brackets(alloc, "DAA", operands.as_str())
        }
        Head::Num(_)
        | Head::Start(_)
        | Head::StartSp
        | Head::Loaded8(_)
        | Head::Loaded16(_)
        | Head::Code(..)
        | Head::Unknown => shallow_words(alloc, head),
    }
}

#[cycle(words)]
fn one_words(
    alloc: Global,
    terms: &Terms,
    what: &str,
    between: &str,
    a: Term,
    depth: u8,
) -> Result<String, AllocError>
    requires { IsGiven terms.now a }
    ensures { IfOk result (λ text. string_bytes text ≡ what.now ++ (between.now ++ words_to depth (tree_in terms.now a))) }
{
    let operand = words_to(alloc, terms, a, depth)?;
    format!(in alloc; "{what}{between}{operand}")
}

#[cycle(words)]
fn two_words(
    alloc: Global,
    terms: &Terms,
    between: &str,
    a: Term,
    b: Term,
    depth: u8,
) -> Result<String, AllocError>
    requires a { IsGiven terms.now a }
    requires b { IsGiven terms.now b }
    ensures { IfOk result (λ text. string_bytes text ≡ two_words between.now (words_to depth (tree_in terms.now a)) (words_to depth (tree_in terms.now b))) }
{
    let first = words_to(alloc, terms, a, depth)?;
    one_words(alloc, terms, first.as_str(), between, b, depth)
}

#[cycle(words)]
fn three_words(
    alloc: Global,
    terms: &Terms,
    between: &str,
    a: Term,
    b: Term,
    c: Term,
    depth: u8,
) -> Result<String, AllocError>
    requires a { IsGiven terms.now a }
    requires b { IsGiven terms.now b }
    requires c { IsGiven terms.now c }
    ensures { IfOk result (λ text. string_bytes text ≡ three_words between.now (words_to depth (tree_in terms.now a)) (words_to depth (tree_in terms.now b)) (words_to depth (tree_in terms.now c))) }
{
    let first = words_to(alloc, terms, a, depth)?;
    let others = two_words(alloc, terms, between, b, c, depth)?;
    format!(in alloc; "{first}{between}{others}")
}

fn in_brackets(alloc: Global, before: &str, inside: &str) -> Result<String, AllocError>
    ensures { IfOk result (λ text. string_bytes text ≡ before.now ++ in_brackets inside.now) }
{
    format!(in alloc; "{before}({inside})")
}

// An operation, with its carry where it takes one.
#[cycle(words)]
fn alu_words(
    alloc: Global,
    terms: &Terms,
    op: Op,
    a: Term,
    b: Term,
    carry: Term,
    depth: u8,
) -> Result<String, AllocError>
    requires a { IsGiven terms.now a }
    requires b { IsGiven terms.now b }
    requires carry { IsGiven terms.now carry }
    ensures { IfOk result (λ text. string_bytes text ≡ alu_words op (words_to depth (tree_in terms.now a)) (words_to depth (tree_in terms.now b)) (words_to depth (tree_in terms.now carry))) }
{
    let sign = sign_words(op);
    let operands = if takes_carry(op) {
        three_words(alloc, terms, sign, a, b, carry, depth)?
    } else {
        two_words(alloc, terms, sign, a, b, depth)?
    };
    in_brackets(alloc, "", operands.as_str())
}

// A rotation; two of them turn the byte alone.
#[cycle(words)]
fn turn_words(
    alloc: Global,
    terms: &Terms,
    kind: u16,
    a: Term,
    carry: Term,
    depth: u8,
) -> Result<String, AllocError>
    requires a { IsGiven terms.now a }
    requires carry { IsGiven terms.now carry }
    ensures { IfOk result (λ text. string_bytes text ≡ turn_words kind (words_to depth (tree_in terms.now a)) (words_to depth (tree_in terms.now carry))) }
{
    let name = match kind {
        0 => return one_words(alloc, terms, "RLC", " ", a, depth),
        1 => return one_words(alloc, terms, "RRC", " ", a, depth),
        2 => "RAL",
        _ => "RAR",
    };
    let operands = two_words(alloc, terms, ", ", a, carry, depth)?;
    in_brackets(alloc, name, operands.as_str())
}
