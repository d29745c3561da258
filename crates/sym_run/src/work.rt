// The work on one block after the other.

ghost use Rattle.std.specs.Prelude.{◌≡◌, ◌+◌, ◌*◌, ◌≤◌, ℕ, [], Some, IfOk, IsSome, MatchOption, ◌↔◌};
ghost use Rattle.cells.specs.Parts.{everything};
ghost use Rattle.sym_terms.specs.Term.{Num};
ghost use Rattle.sym_terms.specs.Trees.{tree_in, IsGiven, PoolGrows};
ghost use Rattle.sym_block_def.specs.Outcome.{Outcome as OutcomeTree};
ghost use Rattle.sym_block_def.specs.Block80.{MayRun, block80};
ghost use Rattle.sym_block_def.specs.Walk86.{walk86};
ghost use Rattle.sym_block_def.specs.Agree.{agrees};
ghost use Rattle.sym_micro.specs.Stands.{id_of_part};
ghost use Rattle.sym_run.specs.Outcomes.{OutcomeStands, WalkComesTo};

use crate::agreement::agree;
use crate::{Index86, run_text};
use asm80_types::Program80;
use cells::{Keep, Part};
use std::alloc::{AllocError, Global};
use std::marker::Model;
use sym_block_def::Reason;
use sym_micro::{Action, Exit, Held, Run, Way};
use sym_step::run_block;
use sym_terms::{Head, Term, Terms};
use xlt_pool::Mark;

/// How many nodes there may be: enough for one block on both sides.
const ROOM: u32 = 8_192;

/// How many loads and stores an outcome may have.
const ACTIONS: usize = 512;

/// What a block does.
pub struct Outcome {
    run: Run,
    exit: Exit,
    direct: bool,
}

// Written out, so that letting one go is one call wherever it is done.
impl Drop for Outcome {
    fn drop(self) {
        let Outcome {
            run: _run,
            exit: _exit,
            direct: _direct,
        } = self;
    }
}

impl Model for Outcome {
    ghost use Rattle.sym_run.specs.Outcomes.{OutcomeIds};

    ghost Value = { OutcomeIds };

    ghost use Rattle.std.specs.Prelude.{◌≡◌};
    ghost use Rattle.std.specs.Vec.{vec_capacity};

    ghost view = { λ o. record { actions = o.run.actions.items; held = o.run.held; sp = o.run.sp; exit = o.exit; direct = o.direct } };

    ghost invariant = { λ o. vec_capacity o.run.actions ≡ 512 };
}

impl Outcome {
    /// The loads and stores, in their order.
    pub fn actions(&self) -> &[Action]
        ensures { result.now ≡ self.now.actions }
    {
        &self.run.actions
    }

    /// What a part holds afterwards.
    pub fn part(&self, part: Part) -> Term
        ensures { result ≡ id_of_part self.now.held part }
    {
        let held = &self.run.held;
        held.part(part)
    }

    /// What SP holds afterwards.
    pub fn sp(&self) -> Term
        ensures { result ≡ self.now.sp }
    {
        self.run.sp
    }

    /// Where it goes.
    pub fn exit(&self) -> Exit
        ensures { result ≡ self.now.exit }
    {
        self.exit
    }

    /// Whether the 8086 calls the system by INT 224 itself, and not through the runtime.
    pub fn direct(&self) -> bool
        ensures { result ≡ self.now.direct }
    {
        self.direct
    }
}

/// A pool of 8,192 nodes, and room for two outcomes of 512 loads and stores.
pub struct Work {
    terms: Terms,
    first: Outcome,
    second: Outcome,
    keep: Keep,
}

// Written out, so that letting one go is one call wherever it is done.
impl Drop for Work {
    fn drop(self) {
        let Work {
            terms: _terms,
            first: _first,
            second: _second,
            keep: _keep,
        } = self;
    }
}

impl Model for Work {
    ghost use Rattle.sym_run.specs.Outcomes.{WorkState};

    ghost Value = { WorkState };

    ghost use Rattle.std.specs.Prelude.{◌≡◌, ◌+◌, length};

    ghost view = { λ w. record { terms = w.terms; first = w.first; second = w.second; keep = w.keep } };

    ghost invariant = { λ w. w.terms.spare + length w.terms.nodes ≡ 8192 };
}

impl Work {
    /// No terms, all parts kept, and outcomes that stand for nothing yet. No other call takes memory.
    pub fn new(alloc: Global) -> Result<Work, AllocError>
        ensures { IfOk result (λ w. (w.terms.nodes ≡ []) × (w.terms.spare ≡ 8192) × (w.keep ≡ everything)) }
    {
        let mut terms = Terms::new(alloc, ROOM)?;
        let start = terms.mark();
        let term = match terms.unknown() {
            Some(term) => term,
            None => unreachable!(),
        };
        terms.reset(start);
        Ok(Work {
            terms,
            first: empty(alloc, term)?,
            second: empty(alloc, term)?,
            keep: Keep::all(),
        })
    }

    /// The terms that there are are taken away, and all parts are kept again.
    pub fn reset(&mut self)
        ensures nodes { self.new.terms.nodes ≡ [] }
        ensures spare { self.new.terms.spare ≡ 8192 }
        ensures keep { self.new.keep ≡ everything }
    {
        self.terms.reset(Mark(0));
        self.keep = Keep::all();
    }

    /// The parts that the next run of a text starts with.
    pub fn keep(&mut self, keep: Keep)
        ensures { self.new ≡ record self.old { keep = keep } }
    {
        self.keep = keep;
    }

    /// What a block of so many 8080 instructions does becomes the first outcome. None only where there was no room for a node more, as
    /// never after `new` or `reset`.
    pub fn run80(&mut self, program: &Program80, leader: u16, count: u32) -> Option<()>
        requires { MayRun program.now leader count }
        ensures grows { PoolGrows self.old.terms self.new.terms (24 * count + 32) }
        ensures stands { MatchOption result (self.new.terms.spare ≡ 0) (λ _. OutcomeStands self.new.terms self.new.first (block80 program.now leader count)) }
        ensures room { 24 * count + 32 ≤ self.old.terms.spare → IsSome result }
        ensures second { self.new.second ≡ self.old.second }
        ensures still { (x : OutcomeTree) → OutcomeStands self.old.terms self.old.second x → OutcomeStands self.new.terms self.new.second x }
        ensures keep { self.new.keep ≡ self.old.keep }
        ensures leaves { self.old.terms.spare ≡ 8192 → 240 * 16 + 32 ≤ self.new.terms.spare }
    {
        let exit = run_block(&mut self.terms, &mut self.first.run, program, leader, count)?;
        self.first.exit = exit;
        self.first.direct = false;
        Some(())
    }

    /// What the text does at the label of a block of so many 8080 instructions, whose kept parts are what they were, becomes the second
    /// outcome; or the reason why it has none: the text has no such label, or the walk meets Length or Form, whichever comes first. None
    /// only where there was no room for a node more, as never for the first run of a text after `new` or `reset`, before which one block
    /// of the 8080 may be run.
    pub fn run86(
        &mut self,
        program: &Program80,
        text: &Index86,
        leader: u16,
        count: u32,
    ) -> Option<Result<(), Reason>>
        requires { MayRun program.now leader count }
        ensures grows { PoolGrows self.old.terms self.new.terms (240 * count + 32) }
        ensures stands { MatchOption result (self.new.terms.spare ≡ 0) (λ came. WalkComesTo self.new.terms self.new.second (walk86 program.now text.now self.old.keep leader count) came) }
        ensures room { 240 * count + 32 ≤ self.old.terms.spare → IsSome result }
        ensures first { self.new.first ≡ self.old.first }
        ensures still { (x : OutcomeTree) → OutcomeStands self.old.terms self.old.first x → OutcomeStands self.new.terms self.new.first x }
        ensures keep { self.new.keep ≡ self.old.keep }
    {
        let keep = self.keep;
        let run = &mut self.second.run;
        match run_text(&mut self.terms, run, program, text, keep, leader, count)? {
            Ok(end) => {
                self.second.exit = end.exit;
                self.second.direct = end.direct;
                Some(Ok(()))
            }
            Err(reason) => Some(Err(reason)),
        }
    }

    /// The outcome of the last `run80`.
    pub fn first(&self) -> &Outcome
        ensures { result.now ≡ self.now.first }
    {
        &self.first
    }

    /// The outcome of the last `run86`.
    pub fn second(&self) -> &Outcome
        ensures { result.now ≡ self.now.second }
    {
        &self.second
    }

    /// The terms of both outcomes.
    pub fn terms(&self) -> &Terms
        ensures { result.now ≡ self.now.terms }
    {
        &self.terms
    }

    /// Whether a term of the 8080 agrees with one of the 8086. No term is made, and none is walked.
    pub fn agree(&self, s: Term, t: Term) -> bool
        requires s { IsGiven self.now.terms s }
        requires t { IsGiven self.now.terms t }
        ensures { result ≡ agrees (tree_in self.now.terms s) (tree_in self.now.terms t) }
    {
        let terms = &self.terms;
        agree(terms, s, t)
    }

    /// The number that a term is.
    pub fn number_of(&self, term: Term) -> Option<u16>
        requires { IsGiven self.now.terms term }
        ensures { (n : ℕ) → (result ≡ Some n) ↔ (tree_in self.now.terms term ≡ Num n) }
    {
        let terms = &self.terms;
        match terms.head(term) {
            Head::Num(n) => Some(n),
            _ => None,
        }
    }
}

// An outcome that stands for nothing, with room for its actions.
fn empty(alloc: Global, term: Term) -> Result<Outcome, AllocError> {
    let held = Held {
        a: term,
        b: term,
        c: term,
        d: term,
        e: term,
        h: term,
        l: term,
        s: term,
        z: term,
        ac: term,
        p: term,
        cy: term,
    };
    let run = Run {
        held,
        ah: term,
        si: term,
        sp: term,
        t: term,
        u: term,
        v: term,
        w: term,
        x: term,
        result: term,
        turned: term,
        actions: Vec::with_capacity(alloc, ACTIONS)?,
        loads: 0,
    };
    Ok(Outcome {
        run,
        exit: Exit::One(Way::Leave),
        direct: false,
    })
}
