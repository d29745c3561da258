// The makers: each gives a term as the equations have it, and looks at its operands' heads alone, and at those of a Join's halves.

ghost use Rattle.std.specs.Prelude.{◌≡◌, ◌<◌, ◌≤◌, ◌||◌, true, cond};
ghost use Rattle.sym_terms.specs.Term.{Num, Start, StartSp, Loaded8, Loaded16, Sum16, Code, Unknown, is_open, is_byte, is_bit, is_word, is_flag, leaves_flag};
ghost use Rattle.sym_terms.specs.Making.{IsTermMade, alu, flag, sum16, regrouped, plus, high, low, half_of, join, bit, turn_or_turned, adjust};
ghost use Rattle.sym_terms.specs.Heads.{opens, is_logic_head, is_addition_head};
ghost use Rattle.sym_terms.specs.Trees.{tree_in, IsGiven, IsA, AreTerms, Makes};

use crate::head::{Head, Term};
use crate::terms::Terms;
use cells::{Part, Place};
use i80::Op;

impl Terms {
    /// A number.
    pub fn number(&mut self, n: u16) -> Option<Term>
        ensures { Makes self.old self.new 1 (Num n) result }
    {
        self.keep_leaf(Head::Num(n))
    }

    /// What a part held at the start.
    pub fn start(&mut self, part: Part) -> Option<Term>
        ensures { Makes self.old self.new 1 (Start part) result }
    {
        self.keep_leaf(Head::Start(part))
    }

    /// What SP held at the start.
    pub fn start_sp(&mut self) -> Option<Term>
        ensures { Makes self.old self.new 1 StartSp result }
    {
        self.keep_leaf(Head::StartSp)
    }

    /// What is not known.
    pub fn unknown(&mut self) -> Option<Term>
        ensures { Makes self.old self.new 1 Unknown result }
    {
        self.keep_leaf(Head::Unknown)
    }

    /// The high half of a code address, or the low one.
    pub fn code(&mut self, place: Place, high: bool) -> Option<Term>
        ensures { Makes self.old self.new 1 (Code place high) result }
    {
        self.keep_leaf(Head::Code(place, high))
    }

    /// The byte or the word that the load with this number brought, counted from 0.
    pub fn loaded(&mut self, index: u16, word: bool) -> Option<Term>
        ensures { Makes self.old self.new 1 (cond word (Loaded16 index) (Loaded8 index)) result }
    {
        if word {
            self.keep_leaf(Head::Loaded16(index))
        } else {
            self.keep_leaf(Head::Loaded8(index))
        }
    }

    /// An operation on two bytes and a carry.
    pub fn alu(&mut self, op: Op, a: Term, b: Term, carry: Term) -> Option<Term>
        requires a { IsA is_byte self.old a }
        requires b { IsA is_byte self.old b }
        requires carry { IsA is_bit self.old carry }
        ensures { Makes self.old self.new 1 (alu op (tree_in self.old a) (tree_in self.old b) (tree_in self.old carry)) result }
    {
        if self.any_open(a, b, carry) {
            self.unknown()
        } else {
            self.keep(Head::Alu(op, a, b, carry))
        }
    }

    /// A flag that an operation leaves: of a rotation CY alone.
    pub fn flag(&mut self, part: Part, of: Term) -> Option<Term>
        requires { IsA (leaves_flag part) self.old of }
        ensures { Makes self.old self.new 1 (flag part (tree_in self.old of)) result }
    {
        if self.is_open(of) {
            return self.unknown();
        }
        match part {
            Part::Cy => {
                if is_logic(self.head(of)) {
                    self.number(0)
                } else {
                    self.keep(Head::Flag(part, of))
                }
            }
            Part::Ac => {
                if is_addition(self.head(of)) {
                    self.keep(Head::Flag(part, of))
                } else {
                    self.unknown()
                }
            }
            _ => self.keep(Head::Flag(part, of)),
        }
    }

    /// The sum of two words, modulo 65,536.
    pub fn sum16(&mut self, a: Term, b: Term) -> Option<Term>
        requires a { IsA is_word self.old a }
        requires b { IsA is_word self.old b }
        ensures { Makes self.old self.new 2 (sum16 (tree_in self.old a) (tree_in self.old b)) result }
    {
        if self.either_open(a, b) {
            return self.unknown();
        }
        match self.head(b) {
            Head::Num(n) => self.gathered(a, n),
            _ => self.keep(Head::Sum16(a, b)),
        }
    }

    // The sum of a word and a number; where the word is itself such a sum, the numbers are added.
    fn gathered(&mut self, a: Term, n: u16) -> Option<Term>
        requires given { IsGiven self.old a }
        requires made { IsTermMade (regrouped (tree_in self.old a) n) }
        ensures { Makes self.old self.new 2 (regrouped (tree_in self.old a) n) result }
    {
        match self.head(a) {
            Head::Num(m) => self.number(m.wrapping_add(n)),
            Head::Sum16(word, number) => match self.head(number) {
                Head::Num(m) => self.plus(word, m.wrapping_add(n)),
                _ => self.plus(a, n),
            },
            _ => self.plus(a, n),
        }
    }

    // A word and a number, of which 0 is left out.
    fn plus(&mut self, a: Term, n: u16) -> Option<Term>
        requires given { IsGiven self.old a }
        requires made { IsTermMade (plus (tree_in self.old a) n) }
        requires terms { AreTerms self.old }
        ensures { Makes self.old self.new 2 (plus (tree_in self.old a) n) result }
    {
        if n == 0 {
            return Some(a);
        }
        let number = self.number(n)?;
        self.keep(Head::Sum16(a, number))
    }

    /// The word of a high and a low byte.
    pub fn join(&mut self, high: Term, low: Term) -> Option<Term>
        requires high { IsA is_byte self.old high }
        requires low { IsA is_byte self.old low }
        ensures { Makes self.old self.new 1 (join (tree_in self.old high) (tree_in self.old low)) result }
    {
        match self.head(high) {
            Head::Num(h) => match self.head(low) {
                Head::Num(l) => self.number(256 * h + l),
                _ => self.keep(Head::Join(high, low)),
            },
            Head::High(word) => match self.head(low) {
                Head::Low(other) => {
                    if other == word && !self.is_adjusted(word) {
                        Some(word)
                    } else {
                        self.keep(Head::Join(high, low))
                    }
                }
                _ => self.keep(Head::Join(high, low)),
            },
            _ => self.keep(Head::Join(high, low)),
        }
    }

    /// The half of a word: the high one, or the low one.
    pub fn half(&mut self, a: Term, high: bool) -> Option<Term>
        requires { IsA is_word self.old a }
        ensures { Makes self.old self.new 1 (half_of high (tree_in self.old a)) result }
    {
        if high {
            self.high_half(a)
        } else {
            self.low_half(a)
        }
    }

    fn high_half(&mut self, word: Term) -> Option<Term>
        requires { IsA is_word self.old word }
        ensures { Makes self.old self.new 1 (high (tree_in self.old word)) result }
    {
        match self.head(word) {
            Head::Num(n) => self.number(n / 256),
            Head::Join(high, _) => Some(high),
            Head::Turned(_) | Head::Unknown => self.unknown(),
            _ => self.keep(Head::High(word)),
        }
    }

    fn low_half(&mut self, word: Term) -> Option<Term>
        requires { IsA is_word self.old word }
        ensures { Makes self.old self.new 1 (low (tree_in self.old word)) result }
    {
        match self.head(word) {
            Head::Num(n) => self.number(n % 256),
            Head::Join(_, low) => Some(low),
            Head::Turned(_) | Head::Unknown => self.unknown(),
            _ => self.keep(Head::Low(word)),
        }
    }

    /// The bit of a byte that stands for a flag.
    pub fn bit(&mut self, byte: Term, part: Part) -> Option<Term>
        requires byte { IsA is_byte self.old byte }
        requires part { is_flag part ≡ true }
        ensures { Makes self.old self.new 1 (bit (tree_in self.old byte) part) result }
    {
        match self.head(byte) {
            Head::FlagByte(s, z, ac, p, cy) => Some(match part {
                Part::S => s,
                Part::Z => z,
                Part::Ac => ac,
                Part::P => p,
                _ => cy,
            }),
            Head::Unknown => self.unknown(),
            _ => self.keep(Head::Bit(byte, part)),
        }
    }

    /// A byte rotated by 1 with a carry: 0 is RLC, 1 RRC, 2 RAL, 3 RAR; or for 4 a word rotated right, this carry coming in.
    pub fn turn(&mut self, kind: u8, a: Term, carry: Term) -> Option<Term>
        requires kind { kind ≤ 4 }
        requires a { kind < 4 → IsA is_byte self.old a }
        requires carry { IsA is_bit self.old carry }
        ensures { Makes self.old self.new 1 (turn_or_turned kind (tree_in self.old a) (tree_in self.old carry)) result }
    {
        // asked of each kind, since it shows the carry's term to the proof
        let carry_open = self.is_open(carry);
        if kind == 4 {
            self.keep(Head::Turned(carry))
        } else if carry_open {
            self.unknown()
        } else if self.is_open(a) {
            self.unknown()
        } else {
            self.keep(Head::Turn(u16::from(kind), a, carry))
        }
    }

    /// A decimal adjustment of a byte with AC and CY.
    pub fn adjust(&mut self, a: Term, ac: Term, cy: Term) -> Option<Term>
        requires a { IsA is_byte self.old a }
        requires ac { IsA is_bit self.old ac }
        requires cy { IsA is_bit self.old cy }
        ensures { Makes self.old self.new 1 (adjust (tree_in self.old a) (tree_in self.old ac) (tree_in self.old cy)) result }
    {
        if self.any_open(a, ac, cy) {
            self.unknown()
        } else {
            self.keep(Head::Adjust(a, ac, cy))
        }
    }

    // Whether an Unknown, a FlagByte or a Turned stands in a term.
    fn is_open(&self, term: Term) -> bool
        requires { IsGiven self.now term }
        ensures open { result ≡ is_open (tree_in self.now term) }
        ensures made { IsTermMade (tree_in self.now term) }
        ensures terms { AreTerms self.now }
    {
        match self.head(term) {
            Head::Join(high, low) => opens(self.head(high)) || opens(self.head(low)),
            head => opens(head),
        }
    }

    fn either_open(&self, a: Term, b: Term) -> bool
        requires a { IsGiven self.now a }
        requires b { IsGiven self.now b }
        ensures open { result ≡ (is_open (tree_in self.now a) || is_open (tree_in self.now b)) }
        ensures a_made { IsTermMade (tree_in self.now a) }
        ensures b_made { IsTermMade (tree_in self.now b) }
    {
        let a_open = self.is_open(a);
        let b_open = self.is_open(b);
        a_open || b_open
    }

    fn any_open(&self, a: Term, b: Term, c: Term) -> bool
        requires a { IsGiven self.now a }
        requires b { IsGiven self.now b }
        requires c { IsGiven self.now c }
        ensures open { result ≡ (is_open (tree_in self.now a) || (is_open (tree_in self.now b) || is_open (tree_in self.now c))) }
        ensures a_made { IsTermMade (tree_in self.now a) }
        ensures b_made { IsTermMade (tree_in self.now b) }
        ensures c_made { IsTermMade (tree_in self.now c) }
    {
        let a_open = self.is_open(a);
        let others_open = self.either_open(b, c);
        a_open || others_open
    }
}

fn opens(head: Head) -> bool
    ensures { result ≡ opens head }
{
    matches!(head, Head::FlagByte(..) | Head::Turned(_) | Head::Unknown)
}

fn is_logic(head: Head) -> bool
    ensures { result ≡ is_logic_head head }
{
    matches!(head, Head::Alu(Op::Ana | Op::Xra | Op::Ora, ..))
}

fn is_addition(head: Head) -> bool
    ensures { result ≡ is_addition_head head }
{
    matches!(head, Head::Alu(Op::Add | Op::Adc, ..))
}
