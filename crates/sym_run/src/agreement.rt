// When two terms agree.

ghost use Rattle.std.specs.Prelude.{◌≡◌, ◌==◌, ◌&&◌, ◌||◌, true, false};
ghost use Rattle.cells.specs.declared.Part.TheVariants.{S, Z, Ac, P, Cy};
ghost use Rattle.sym_terms.specs.Term.{Bit, Unknown, same_term, is_bit, is_byte, is_flag};
ghost use Rattle.sym_terms.specs.Making.{bit};
ghost use Rattle.sym_terms.specs.Trees.{tree_in, IsGiven, IsA};
ghost use Rattle.sym_block_def.specs.Agree.{agrees};
ghost use Rattle.sym_run.specs.Seen.{tree_of_seen, SeenIsGiven};
ghost use Rattle.sym_run.specs.Five.{is_byte_of_flags, is_put_together, id_of_five, FiveAre, IsJoin};

use crate::known::{Five, flags_of, knows_bit, knows_byte, knows_five};
use crate::seen::{Seen, half_of, is, is_unknown, same};
use cells::Part;
use sym_terms::{Head, Term, Terms, made_terms_have_sorts};

/// Whether a term of the 8080 agrees with one of the 8086. No term is made, and none is walked: it looks three nodes deep at most.
pub fn agree(terms: &Terms, s: Term, t: Term) -> bool
    requires s { IsGiven terms.now s }
    requires t { IsGiven terms.now t }
    ensures { result ≡ agrees (tree_in terms.now s) (tree_in terms.now t) }
{
    match terms.head(s) {
        Head::Join(high, low) => agree_join(terms, s, high, low, t),
        Head::Turned(carry) => {
            let knows = knows_bit(terms, carry);
            same(terms, s, t) && knows
        }
        Head::FlagByte(..) => agree_plain(terms, s, Seen::Of(t)),
        Head::Unknown => true,
        _ => agree_known(terms, s, t),
    }
}

// A term that is put together of none, and is not Unknown: it agrees with itself alone.
fn agree_known(terms: &Terms, s: Term, t: Term) -> bool
    requires s { IsGiven terms.now s }
    requires t { IsGiven terms.now t }
    requires plain { is_put_together (tree_in terms.now s) ≡ true }
    requires no_flags { is_byte_of_flags (tree_in terms.now s) ≡ false }
    requires known { same_term (tree_in terms.now s) Unknown ≡ false }
    ensures { result ≡ agrees (tree_in terms.now s) (tree_in terms.now t) }
{
    made_terms_have_sorts();
    // for its contract alone: the terms are terms
    let _mark = terms.mark();
    same(terms, s, t)
}

// A word of two bytes: by its halves, where it is not the same and known.
fn agree_join(terms: &Terms, s: Term, high: Term, low: Term, t: Term) -> bool
    requires s { IsGiven terms.now s }
    requires t { IsGiven terms.now t }
    requires join { IsJoin terms.now s high low }
    ensures { result ≡ agrees (tree_in terms.now s) (tree_in terms.now t) }
{
    let knows = knows_byte(terms, high) && knows_byte(terms, low);
    let first = agree_byte(terms, high, half_of(terms, t, true));
    let second = agree_byte(terms, low, half_of(terms, t, false));
    same(terms, s, t) && knows || first && second
}

// A byte, which is no Join and no Turned.
fn agree_byte(terms: &Terms, byte: Term, seen: Seen) -> bool
    requires byte { IsA is_byte terms.now byte }
    requires seen { SeenIsGiven terms.now seen }
    ensures { result ≡ agrees (tree_in terms.now byte) (tree_of_seen terms.now seen) }
{
    agree_plain(terms, byte, seen)
}

// A term that is no Join and no Turned.
fn agree_plain(terms: &Terms, s: Term, seen: Seen) -> bool
    requires s { IsGiven terms.now s }
    requires seen { SeenIsGiven terms.now seen }
    requires plain { is_put_together (tree_in terms.now s) ≡ true }
    ensures { result ≡ agrees (tree_in terms.now s) (tree_of_seen terms.now seen) }
{
    made_terms_have_sorts();
    // for its contract alone: the terms are terms
    let _mark = terms.mark();
    match flags_of(terms, s) {
        Some(five) => agree_five(terms, s, five, seen),
        None => {
            let unknown = is_unknown(terms, s);
            let one = is(terms, s, seen);
            unknown || one
        }
    }
}

// A byte of flags: by its flags, where it is not the same and known.
fn agree_five(terms: &Terms, s: Term, five: Five, seen: Seen) -> bool
    requires s { IsGiven terms.now s }
    requires seen { SeenIsGiven terms.now seen }
    requires five { FiveAre terms.now (tree_in terms.now s) five }
    ensures { result ≡ agrees (tree_in terms.now s) (tree_of_seen terms.now seen) }
{
    let one = is(terms, s, seen);
    let knows = knows_five(terms, s, five);
    let sign = agree_flag(terms, five.s, Part::S, seen);
    let zero = agree_flag(terms, five.z, Part::Z, seen);
    let half = agree_flag(terms, five.ac, Part::Ac, seen);
    let parity = agree_flag(terms, five.p, Part::P, seen);
    let carry = agree_flag(terms, five.cy, Part::Cy, seen);
    one && knows || sign && zero && half && parity && carry
}

// A flag with its bit in a byte.
fn agree_flag(terms: &Terms, flag: Term, part: Part, seen: Seen) -> bool
    requires flag { IsA is_bit terms.now flag }
    requires seen { SeenIsGiven terms.now seen }
    requires part { is_flag part ≡ true }
    ensures { result ≡ agrees (tree_in terms.now flag) (bit (tree_of_seen terms.now seen) part) }
{
    made_terms_have_sorts();
    // for its contract alone: the terms are terms
    let _mark = terms.mark();
    let unknown = is_unknown(terms, flag);
    let one = is_bit_in(terms, flag, part, seen);
    unknown || one
}

// Whether a flag is its bit in a byte.
fn is_bit_in(terms: &Terms, flag: Term, part: Part, seen: Seen) -> bool
    requires flag { IsGiven terms.now flag }
    requires seen { SeenIsGiven terms.now seen }
    requires part { is_flag part ≡ true }
    ensures { result ≡ same_term (tree_in terms.now flag) (bit (tree_of_seen terms.now seen) part) }
{
    match seen {
        Seen::Of(byte) => is_bit_of(terms, flag, part, byte),
        Seen::Unknown => is_unknown(terms, flag),
        _ => is_bit_at(terms, flag, part, seen),
    }
}

fn is_bit_of(terms: &Terms, flag: Term, part: Part, byte: Term) -> bool
    requires flag { IsGiven terms.now flag }
    requires byte { IsGiven terms.now byte }
    requires part { is_flag part ≡ true }
    ensures { result ≡ same_term (tree_in terms.now flag) (bit (tree_in terms.now byte) part) }
{
    match flags_of(terms, byte) {
        Some(five) => same(terms, flag, flag_of(five, part)),
        None => {
            if is_unknown(terms, byte) {
                is_unknown(terms, flag)
            } else {
                is_bit_at(terms, flag, part, Seen::Of(byte))
            }
        }
    }
}

// One of the five flags.
fn flag_of(five: Five, part: Part) -> Term
    ensures { result ≡ id_of_five five part }
{
    match part {
        Part::S => five.s,
        Part::Z => five.z,
        Part::Ac => five.ac,
        Part::P => five.p,
        _ => five.cy,
    }
}

// Whether a term is the bit for a flag of what is seen, as a node of its own.
fn is_bit_at(terms: &Terms, flag: Term, part: Part, seen: Seen) -> bool
    requires flag { IsGiven terms.now flag }
    requires seen { SeenIsGiven terms.now seen }
    ensures { result ≡ same_term (tree_in terms.now flag) (Bit (tree_of_seen terms.now seen) part) }
{
    match terms.head(flag) {
        Head::Bit(byte, other) => other as u16 == part as u16 && is(terms, byte, seen),
        _ => false,
    }
}
