// Statements as text.
use crate::source::statements_by;
use asm80_types::{Arg, Expr, Name80, ReadFault, StatementReader, Stmt80, Two};
use std::alloc::{AllocError, Global};

fn sign(op: Two) -> &'static str {
    match op {
        Two::Mul => "*",
        Two::Div => "/",
        Two::Mod => " MOD ",
        Two::Shl => " SHL ",
        Two::Shr => " SHR ",
        Two::Add => "+",
        Two::Sub => "-",
        Two::And => " AND ",
        Two::Or => " OR ",
        Two::Xor => " XOR ",
    }
}

fn push_bytes(text: &mut String, bytes: &[u8]) -> Result<(), AllocError> {
    for b in bytes {
        text.push(char::from(*b))?;
    }
    Ok(())
}

// An expression with a pair of parentheses for each operator.
fn push_expr(text: &mut String, e: &Expr) -> Result<(), AllocError> {
    match e {
        Expr::Num(n) => write!(text, "{n}"),
        Expr::Here => text.push('$'),
        Expr::Name(name) => push_bytes(text, name.as_slice()),
        Expr::Not(inside) => {
            text.push_str("(NOT ")?;
            push_expr(text, inside)?;
            text.push(')')
        }
        Expr::Neg(inside) => {
            text.push_str("(-")?;
            push_expr(text, inside)?;
            text.push(')')
        }
        Expr::Two(op, a, b) => {
            text.push('(')?;
            push_expr(text, a)?;
            text.push_str(sign(*op))?;
            push_expr(text, b)?;
            text.push(')')
        }
    }
}

fn push_arg(text: &mut String, arg: &Arg) -> Result<(), AllocError> {
    match arg {
        Arg::Text(bytes) => {
            text.push('\'')?;
            push_bytes(text, bytes.as_slice())?;
            text.push('\'')
        }
        Arg::Value(e) => push_expr(text, e),
    }
}

fn push_args(text: &mut String, args: &[Arg]) -> Result<(), AllocError> {
    let mut before = ' ';
    for arg in args {
        text.push(before)?;
        push_arg(text, arg)?;
        before = ';';
    }
    Ok(())
}

fn push_name(text: &mut String, name: Option<Name80>, after: &str) -> Result<(), AllocError> {
    let Some(name) = name else {
        return Ok(());
    };
    text.push(' ')?;
    push_bytes(text, name.as_slice())?;
    text.push_str(after)
}

// A statement as `line LABEL: OPERATION operand;operand`.
fn push_statement(text: &mut String, statement: &Stmt80) -> Result<(), AllocError> {
    write!(text, "{}", statement.line)?;
    push_name(text, statement.label, ":")?;
    push_name(text, statement.op, "")?;
    push_args(text, statement.args.as_slice())
}

/// The statements of a source, by a reader.
pub fn statements_text<R: StatementReader>(
    alloc: Global,
    source: &[u8],
) -> Result<String, ReadFault> {
    let mut text = String::new(alloc);
    let mut before = "";
    for statement in &statements_by::<R>(alloc, source)? {
        text.push_str(before)?;
        push_statement(&mut text, statement)?;
        before = " | ";
    }
    Ok(text)
}
