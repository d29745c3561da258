// Each maker of terms with ample memory; and a chain of shared terms.

use cells::{Part, Place};
use i80::Op;
use std::test::Fail;
use sym_terms::{Term, Terms};

// A byte of which each maker of bytes and bits has made a part.
fn byte_made(terms: &mut Terms) -> Option<Term> {
    let a = terms.start(Part::A)?;
    let carry = terms.start(Part::Cy)?;
    let sum = terms.alu(Op::Adc, a, a, carry)?;
    let zero = terms.flag(Part::Z, sum)?;
    let flags = terms.flag_byte([carry, zero, zero, zero, zero])?;
    let sign = terms.bit(flags, Part::S)?;
    let turned = terms.turn(2, a, sign)?;
    terms.adjust(turned, sign, sign)
}

// A word likewise.
fn word_made(terms: &mut Terms) -> Option<Term> {
    let sp = terms.start_sp()?;
    let loaded = terms.loaded(0, true)?;
    let sum = terms.sum16(sp, loaded)?;
    let high = terms.half(sum, true)?;
    let low = terms.code(Place::Exit, false)?;
    let joined = terms.join(high, low)?;
    let number = terms.number(1)?;
    terms.sum16(joined, number)
}

// A chain in which each term is used twice: its tree has 2 to the 5,000 leaves.
fn chain(terms: &mut Terms) -> Option<Term> {
    let zero = terms.number(0)?;
    let mut sum = terms.start(Part::A)?;
    'links: for _ in 0..5000 {
        let next = terms.alu(Op::Add, sum, sum, zero)?;
        sum = next;
    }
    Some(sum)
}

// Made again, each is the same term.
#[test]
fn makers_make(rt: HostRuntime) -> Result<(), Fail> {
    let mut terms = Terms::new(rt.alloc(), 100)?;
    let byte = byte_made(&mut terms);
    let word = word_made(&mut terms);
    let length = terms.mark().0;
    assert!(rt; byte != None && byte_made(&mut terms) == byte);
    assert!(rt; word != None && word_made(&mut terms) == word);
    assert!(rt; terms.unknown() != None && terms.mark().0 == length.wrapping_add(1));
    Ok(())
}

#[test]
fn no_room(rt: HostRuntime) -> Result<(), Fail> {
    let mut terms = Terms::new(rt.alloc(), 0)?;
    assert!(rt; terms.number(1) == None);
    Ok(())
}

#[test]
fn chains(rt: HostRuntime) -> Result<(), Fail> {
    let mut terms = Terms::new(rt.alloc(), 5002)?;
    let first = chain(&mut terms);
    let length = terms.mark().0;
    let second = chain(&mut terms);
    assert!(rt; first != None && length == 5002 && second == first);
    Ok(())
}
