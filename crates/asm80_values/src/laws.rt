// Laws of sources: each has at most one outcome, and none is without.
ghost use Rattle.std.specs.Prelude.{◌≡◌, ℕ, List, Option, true, None};
ghost use Rattle.asm80_types.specs.declared.fault.ReadFault.{ReadFault};
ghost use Rattle.asm80_types.specs.Ranges.{AreInRange};
ghost use Rattle.asm80_types.specs.Tree.{Statement};
ghost use Rattle.asm80_text.specs.Stream.{StreamGives};
ghost use Rattle.asm80_types.specs.Program.{Program, is_top};
ghost use Rattle.asm80_source_def.specs.Assembly.{refusal, IsAssembled};
ghost use Rattle.asm80_source_def.specs.Source.{IsSource, IsNoSource, SourceRule};

use asm80_text::Notation;
use asm80_types::StatementReader;

/// By the reading of any reader the bytes of a source, with a top of the program area, have at most one outcome: a program, or a
/// line and rule, and never both.
pub fn source_has_one_outcome<R: StatementReader>()
    ensures program { (bytes : List ℕ) (top : ℕ) (p q : Program) → IsSource R.reading bytes top p → IsSource R.reading bytes top q → p ≡ q }
    ensures refusal { (bytes : List ℕ) (top m n : ℕ) (r s : SourceRule) → IsNoSource R.reading bytes top m r → IsNoSource R.reading bytes top n s → (m ≡ n) × (r ≡ s) }
    ensures apart { (bytes : List ℕ) (top n : ℕ) (p : Program) (r : SourceRule) → IsSource R.reading bytes top p → IsNoSource R.reading bytes top n r → ⊥ }
{
    R::reading_has_one_outcome();
}

/// A law: in each spelling the statements of a stream have words for numbers and bytes for characters.
pub fn statements_of_a_stream_are_in_range<N: Notation>()
    ensures { (stream : List ℕ) (ss : List Statement) (fault : Option ReadFault) → StreamGives N.spelling stream ss fault → AreInRange ss }
{
    N::spelling_is_coherent();
}

/// A law: statements in range that break no rule are a program; so in each spelling a stream of such statements is the source of
/// one. With `source_has_one_outcome` it is the source of just one.
pub fn statements_without_a_refusal_are_a_program<N: Notation>()
    ensures program { (ss : List Statement) (top : ℕ) → AreInRange ss → is_top top ≡ true → refusal ss top ≡ None → (p : Program) × IsAssembled ss top p }
    ensures source { (bytes : List ℕ) (ss : List Statement) (top : ℕ) → StreamGives N.spelling bytes ss None → is_top top ≡ true → refusal ss top ≡ None → (p : Program) × IsSource (StreamGives N.spelling) bytes top p }
{
    statements_of_a_stream_are_in_range::<N>();
}

/// A law: in each spelling no stream of a source is without an outcome, its statements or its first fault with the statements
/// before it. With `stream_has_one_outcome` it has just one.
pub fn each_stream_has_an_outcome<N: Notation>()
    ensures { (stream : List ℕ) → ((statements : List Statement) (fault : Option ReadFault) → StreamGives N.spelling stream statements fault → ⊥) → ⊥ }
{}

/// A law: in each spelling no stream is without both, a program that it is the source of and a rule that it breaks. With
/// `source_has_one_outcome` it has just one of the two, and one program or one rule.
pub fn each_source_has_an_outcome<N: Notation>()
    ensures { (bytes : List ℕ) (top : ℕ) → is_top top ≡ true → ((p : Program) → IsSource (StreamGives N.spelling) bytes top p → ⊥) → ((line : ℕ) (rule : SourceRule) → IsNoSource (StreamGives N.spelling) bytes top line rule → ⊥) → ⊥ }
{
    each_stream_has_an_outcome::<N>();
    statements_without_a_refusal_are_a_program::<N>();
}
