// The smallest pair of terms that differs.

ghost use Rattle.std.specs.Prelude.{◌≡◌, ◌==◌, ◌∷◌, ◌↔◌, [], IsTrue, cond, filter};
ghost use Rattle.sym_terms.specs.Numbers.{op_number, part_number};
ghost use Rattle.block_explain.specs.Smallest.{Smallest, only_one, is_not_one, only_difference};
ghost use Rattle.block_explain.specs.Pairs.{trees_of, trees_of_all, AreBothGiven, AreAllGiven, PairIsFound};

use cells::Part;
use i80::Op;
use sym_run::same;
use sym_terms::Head::{
    Adjust, Alu, Bit, Code, Flag, FlagByte, High, Join, Loaded8, Loaded16, Low, Num, Start,
    StartSp, Sum16, Turn, Turned, Unknown,
};
use sym_terms::{Term, Terms};

/// A term of the 8080, and one of the 8086.
#[derive(Clone, Copy)]
pub struct TermPair {
    pub ours: Term,
    pub theirs: Term,
}

/// A pair of terms.
pub fn pair(ours: Term, theirs: Term) -> TermPair
    ensures { result ≡ record { ours = ours; theirs = theirs } }
{
    TermPair { ours, theirs }
}

/// Of two terms the smallest pair that differs. It goes down one operand at a time, so it takes no longer than a term is deep.
pub fn smallest_pair(terms: &Terms, pair: TermPair) -> TermPair
    requires { AreBothGiven terms.now pair }
    ensures given { AreBothGiven terms.now result }
    ensures smallest { Smallest (trees_of terms.now pair) (trees_of terms.now result) }
{
    let mut smallest = pair;
    while let Some(operands) = only_difference(terms, smallest) {
        smallest = operands;
    }
    smallest
}

// The one pair of operands that is not one term, of two terms of one operation.
fn only_difference(terms: &Terms, whole: TermPair) -> Option<TermPair>
    requires { AreBothGiven terms.now whole }
    ensures { PairIsFound terms.now (only_difference (trees_of terms.now whole)) result }
{
    let theirs = terms.head(whole.theirs);
    match terms.head(whole.ours) {
        Alu(op, a, b, c) => match theirs {
            Alu(other, x, y, z) => only_one_if(
                terms,
                is_op(op, other),
                &[pair(a, x), pair(b, y), pair(c, z)],
            ),
            _ => None,
        },
        Flag(part, a) => match theirs {
            Flag(other, x) => only_one_if(terms, is_part(part, other), &[pair(a, x)]),
            _ => None,
        },
        Sum16(a, b) => match theirs {
            Sum16(x, y) => only_one(terms, &[pair(a, x), pair(b, y)]),
            _ => None,
        },
        High(a) => match theirs {
            High(x) => only_one(terms, &[pair(a, x)]),
            _ => None,
        },
        Low(a) => match theirs {
            Low(x) => only_one(terms, &[pair(a, x)]),
            _ => None,
        },
        Join(a, b) => match theirs {
            Join(x, y) => only_one(terms, &[pair(a, x), pair(b, y)]),
            _ => None,
        },
        FlagByte(s, z, a, p, c) => match theirs {
            FlagByte(t, y, b, q, d) => only_one(
                terms,
                &[pair(s, t), pair(z, y), pair(a, b), pair(p, q), pair(c, d)],
            ),
            _ => None,
        },
        Bit(a, part) => match theirs {
            Bit(x, other) => only_one_if(terms, is_part(part, other), &[pair(a, x)]),
            _ => None,
        },
        Turn(kind, a, b) => match theirs {
            Turn(other, x, y) => only_one_if(terms, kind == other, &[pair(a, x), pair(b, y)]),
            _ => None,
        },
        Turned(a) => match theirs {
            Turned(x) => only_one(terms, &[pair(a, x)]),
            _ => None,
        },
        Adjust(a, b, c) => match theirs {
            Adjust(x, y, z) => only_one(terms, &[pair(a, x), pair(b, y), pair(c, z)]),
            _ => None,
        },
        Num(_) | Start(_) | StartSp | Loaded8(_) | Loaded16(_) | Code(..) | Unknown => None,
    }
}

// The pair of two operations that alone is not one term, where the operations are one.
fn only_one_if(terms: &Terms, is_one: bool, pairs: &[TermPair]) -> Option<TermPair>
    requires { AreAllGiven terms.now pairs.now }
    ensures { PairIsFound terms.now (only_one (filter is_not_one (cond is_one (trees_of_all terms.now pairs.now) []))) result }
{
    if is_one { only_one(terms, pairs) } else { None }
}

fn is_op(op: Op, other: Op) -> bool
    ensures { result ≡ (op_number op == op_number other) }
{
    op as u16 == other as u16
}

fn is_part(part: Part, other: Part) -> bool
    ensures { result ≡ (part_number part == part_number other) }
{
    part as u16 == other as u16
}

// The pair that alone is not one term.
fn only_one(terms: &Terms, pairs: &[TermPair]) -> Option<TermPair>
    requires { AreAllGiven terms.now pairs.now }
    ensures { PairIsFound terms.now (only_one (filter is_not_one (trees_of_all terms.now pairs.now))) result }
{
    let mut rest = pairs;
    while let Some((first, others)) = rest.split_first() {
        if !same(terms, first.ours, first.theirs) {
            return if are_same(terms, others) {
                Some(*first)
            } else {
                None
            };
        }
        rest = others;
    }
    None
}

// Whether each pair is one term.
fn are_same(terms: &Terms, pairs: &[TermPair]) -> bool
    requires { AreAllGiven terms.now pairs.now }
    ensures { IsTrue result ↔ (filter is_not_one (trees_of_all terms.now pairs.now) ≡ []) }
{
    let mut rest = pairs;
    while let Some((first, others)) = rest.split_first() {
        if !same(terms, first.ours, first.theirs) {
            return false;
        }
        rest = others;
    }
    true
}
