//! Where the walk is.

ghost use Rattle.std.specs.Prelude.{◌≡◌, ◌∷◌, [], ◌++◌, true, false, cond, ℕ, map, IfOk, OnOk, None};
ghost use Rattle.std.specs.Option.{option_or};
ghost use Rattle.asm80_types.specs.Tree.{operand_of, Statement, statement_of};
ghost use Rattle.asm80_first_walk.specs.Scopes.{scope_of};
ghost use Rattle.asm80_source_def.specs.declared.rule.AsmRule.TheVariants.{V2, V5, V6, V7};
ghost use Rattle.asm80_source_def.specs.declared.meaning.Meaning.{Meaning};
ghost use Rattle.asm80_source_def.specs.Names.{clashes, overflows};
ghost use Rattle.asm80_source_def.specs.Walk.{directive_meaning, ends, is_taken, names_after, operation_in, scope};
ghost use Rattle.asm80_source_def.specs.FirstFaults.{breaks_v5, label_clashes, label_overflows, rule_if, with_line};
ghost use Rattle.asm80_first_walk.specs.State.{Done, Steps, breaks_nesting, final, is_evaluated, nested_ifs, refusals, rule_above, rule_at_end, rule_of_values, start, walk_of};

use crate::directives::{
    address_after, breaks_v5, is_end, is_endif, is_evaluated, is_true, kind_of_label,
    label_meaning, operand_meaning, operation_in, rule_of_values,
};
use crate::ifs::{OpenIf, some_skips};
use crate::walked::{Taken, Walked};
use crate::{Names, Scope};
use asm80_source_def::{AsmRule, Meaning, NameKind, Operation};
use asm80_types::{Arg, Name80, Stmt80};
use std::alloc::{AllocError, Global};
use std::marker::Model;

/// The most IFs that may be open.
const MOST_IFS: usize = 8;

/// The walk behind some of the statements.
#[derive(Drop)]
pub struct Walker {
    at: u16,
    names: Names,
    /// The outermost first.
    ifs: Vec<OpenIf>,
    fault: Option<(u32, AsmRule)>,
    rows: Vec<Taken>,
}

impl Model for Walker {
    ghost use Rattle.asm80_first_walk.specs.State.{State};

    ghost Value = { State };

    ghost view = { λ a. record { at = a.at; names = a.names; ifs = a.ifs.items; fault = a.fault; rows = a.rows.items } };
}

impl Walker {
    /// The walk before the first statement.
    pub fn new(alloc: Global) -> Walker
        ensures { result ≡ start }
    {
        Walker {
            at: 0,
            names: Names::new(alloc),
            ifs: Vec::new(alloc),
            fault: None,
            rows: Vec::new(alloc),
        }
    }

    /// Goes through the statements up to END.
    pub fn run(&mut self, statements: &[Stmt80]) -> Result<(), AllocError>
        requires { self.old ≡ start }
        ensures { OnOk result (Done statements.now self.new) }
    {
        for (index, statement) in statements.iter().enumerate() {
            if self.step(index, statement)? {
                return Ok(());
            }
        }
        Ok(())
    }

    /// The first fault, where no statement is left.
    pub fn verdict(&self) -> Option<(u32, AsmRule)>
        ensures { result ≡ final (refusals self.now.ifs) self.now.fault }
    {
        match self.ifs.first() {
            Some(open) => Some(open.refusal),
            None => self.fault,
        }
    }

    /// The statements that were taken, and the names.
    pub fn into_walked(self) -> Walked
        ensures rows { result.rows.items ≡ self.rows }
        ensures names { result.names ≡ self.names }
    {
        let Walker { rows, names, .. } = self;
        Walked { rows, names }
    }

    // Goes over the statement of an index; whether the source ends there.
    fn step(&mut self, index: usize, statement: &Stmt80) -> Result<bool, AllocError>
        ensures steps { OnOk result (Steps index (statement_of statement.now) self.old self.new) }
        ensures ends { IfOk result (λ b. b ≡ ends (walk_of self.old) (statement_of statement.now)) }
    {
        let operation = operation_in(statement);
        if self.takes(operation) {
            self.take(index, statement, operation)?;
            Ok(is_end(operation))
        } else {
            self.skip(statement, operation)?;
            Ok(false)
        }
    }

    // Whether a statement of an operation is taken.
    fn takes(&self, operation: Option<Operation>) -> bool
        ensures { (s : Statement) → operation_in s ≡ operation → result ≡ is_taken (walk_of self.now) s }
    {
        let Some((innermost, outer)) = self.ifs.split_last() else {
            return true;
        };
        if some_skips(outer) {
            return false;
        }
        innermost.is_taken || is_endif(operation)
    }

    // Goes over a statement that is skipped.
    fn skip(&mut self, statement: &Stmt80, operation: Option<Operation>) -> Result<(), AllocError>
        requires operation { operation ≡ operation_in (statement_of statement.now) }
        requires skipped { is_taken (walk_of self.old) (statement_of statement.now) ≡ false }
        ensures { OnOk result ((index : ℕ) → Steps index (statement_of statement.now) self.old self.new) }
    {
        let rule = self.rule_of_nesting(operation, false);
        self.nest(statement.line, operation, false)?;
        self.note(statement.line, rule);
        Ok(())
    }

    // Goes over a statement that is taken.
    fn take(
        &mut self,
        index: usize,
        statement: &Stmt80,
        operation: Option<Operation>,
    ) -> Result<(), AllocError>
        requires operation { operation ≡ operation_in (statement_of statement.now) }
        requires taken { is_taken (walk_of self.old) (statement_of statement.now) ≡ true }
        ensures { OnOk result (Steps index (statement_of statement.now) self.old self.new) }
    {
        let args = statement.args.as_slice();
        let scope = self.scope();
        let at = scope.here;
        let meaning = operand_meaning(&scope, args);
        let rule_above = self.rule_above(statement, operation);
        self.keep(Taken {
            statement: index,
            at,
            operation,
            meaning,
        })?;
        self.define(statement, operation, meaning)?;
        let rule = rule_above.or(self.rule_at_end(operation, args));
        self.nest(statement.line, operation, is_true(meaning.value))?;
        self.note(statement.line, rule);
        self.go_to(address_after(at, operation, meaning, args));
        Ok(())
    }

    // What the expressions of a statement see.
    fn scope(&self) -> Scope<'_>
        ensures value { scope_of result ≡ scope (walk_of self.now) }
        ensures here { result.here ≡ self.now.at }
    {
        Scope {
            here: self.at,
            names: &self.names,
        }
    }

    // The rule that a statement which is taken breaks, the operand of END aside.
    fn rule_above(&self, statement: &Stmt80, operation: Option<Operation>) -> Option<AsmRule>
        requires operation { operation ≡ operation_in (statement_of statement.now) }
        requires taken { is_taken (walk_of self.now) (statement_of statement.now) ≡ true }
        ensures { result ≡ rule_above (walk_of self.now) (statement_of statement.now) operation }
    {
        self.rule_of_nesting(operation, true)
            .or(self.rule_of_label(statement, operation))
            .or(self.rule_of_operand(statement, operation))
    }

    // V6 where an IF is nested too deep, or an ENDIF that is taken has no IF.
    fn rule_of_nesting(&self, operation: Option<Operation>, taken: bool) -> Option<AsmRule>
        ensures { (s : Statement) → taken ≡ is_taken (walk_of self.now) s → result ≡ rule_if (breaks_nesting (walk_of self.now) s operation) V6 None }
    {
        let depth = self.ifs.len();
        let operation = operation?;
        let breaks = match operation {
            Operation::If => depth >= MOST_IFS,
            Operation::EndIf => taken && depth == 0,
            _ => false,
        };
        if breaks { Some(AsmRule::V6) } else { None }
    }

    // V2 and V7.
    fn rule_of_label(&self, statement: &Stmt80, operation: Option<Operation>) -> Option<AsmRule>
        requires operation { operation ≡ operation_in (statement_of statement.now) }
        ensures { result ≡ rule_if (label_clashes (walk_of self.now) (statement_of statement.now) (statement_of statement.now).label) V2 (rule_if (label_overflows (walk_of self.now) (statement_of statement.now) (statement_of statement.now).label) V7 None) }
    {
        let label = statement.label?;
        self.names.rule_of(&label, kind_of_label(operation))
    }

    // V5, V1 and V4, the operand of END aside.
    fn rule_of_operand(&self, statement: &Stmt80, operation: Option<Operation>) -> Option<AsmRule>
        ensures { result ≡ rule_if (breaks_v5 (statement_of statement.now) operation) V5 (cond (is_evaluated operation) (rule_of_values (scope (walk_of self.now)) (statement_of statement.now).args) None) }
    {
        if breaks_v5(statement, operation) {
            Some(AsmRule::V5)
        } else if is_evaluated(operation) {
            rule_of_values(&self.scope(), statement.args.as_slice())
        } else {
            None
        }
    }

    // The rule that the operand of END breaks, with the names behind its label.
    fn rule_at_end(&self, operation: Option<Operation>, args: &[Arg]) -> Option<AsmRule>
        ensures { result ≡ rule_at_end self.now.at self.now.names (map operand_of args.now) operation }
    {
        if is_end(operation) {
            rule_of_values(&self.scope(), args)
        } else {
            None
        }
    }

    // Defines the label of a statement, whose operand has a meaning.
    fn define(
        &mut self,
        statement: &Stmt80,
        operation: Option<Operation>,
        meaning: Meaning,
    ) -> Result<(), AllocError>
        requires operation { operation ≡ operation_in (statement_of statement.now) }
        requires meaning { meaning ≡ directive_meaning (walk_of self.old) (statement_of statement.now) }
        ensures { OnOk result (self.new ≡ record self.old { names = names_after (walk_of self.old) (statement_of statement.now) }) }
    {
        let Some(label) = statement.label else {
            return Ok(());
        };
        let meaning = label_meaning(self.at, operation, meaning);
        self.names.define(label, kind_of_label(operation), meaning)
    }

    // Opens an IF, whose statements are taken or not, or closes one.
    fn nest(
        &mut self,
        line: u32,
        operation: Option<Operation>,
        is_true: bool,
    ) -> Result<(), AllocError>
        ensures { OnOk result (self.new ≡ record self.old { ifs = nested_ifs self.old.ifs self.old.fault line is_true operation }) }
    {
        let Some(operation) = operation else {
            return Ok(());
        };
        match operation {
            Operation::If => self.ifs.push(OpenIf {
                is_taken: is_true,
                refusal: self.fault.unwrap_or((line, AsmRule::V6)),
            })?,
            Operation::EndIf => {
                self.ifs.pop();
            }
            _ => {}
        }
        Ok(())
    }

    // A fault, if there is one, is the first unless there was one.
    fn note(&mut self, line: u32, rule: Option<AsmRule>)
        ensures { self.new ≡ record self.old { fault = option_or self.old.fault (with_line line rule) } }
    {
        self.fault = self.fault.or(with_line(line, rule));
    }

    fn keep(&mut self, row: Taken) -> Result<(), AllocError>
        ensures { OnOk result (self.new ≡ record self.old { rows = self.old.rows ++ row ∷ [] }) }
    {
        self.rows.push(row)?;
        Ok(())
    }

    fn go_to(&mut self, at: u16)
        ensures { self.new ≡ record self.old { at = at } }
    {
        self.at = at;
    }
}

fn with_line(line: u32, rule: Option<AsmRule>) -> Option<(u32, AsmRule)>
    ensures { result ≡ with_line line rule }
{
    Some((line, rule?))
}
