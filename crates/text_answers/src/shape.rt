//! The shapes of trees, where the text alone doesn't show them: expressions with all their brackets, and statements
//! with brackets around each `if`. Each function writes behind what is there, so that none owns a text that an exit
//! would drop.

use crate::shown::word;
use std::alloc::AllocError;
use vl_tree::{
    Assignment, BinaryOperator, Event, EventKind, Expr, ExprKind, Item, ItemKind, Module, Port,
    PortKind, Stmt, StmtKind,
};

/// The ports and items of a module, each with a semicolon behind it.
pub(crate) fn module(out: &mut String, module: &Module) -> Result<(), AllocError> {
    if let Some(ports) = &module.ports {
        for port in ports.as_slice() {
            out.push_str(port_shape(port))?;
        }
    }
    for item in module.items.as_slice() {
        item_shape(out, item)?;
        out.push_str("; ")?;
    }
    Ok(())
}

fn port_shape(port: &Port) -> &'static str {
    match &port.kind {
        PortKind::Full(_) => "full; ",
        PortKind::Short(_, None) => "short; ",
        PortKind::Short(_, Some(_)) => "short value; ",
    }
}

fn item_shape(out: &mut String, item: &Item) -> Result<(), AllocError> {
    match &item.kind {
        ItemKind::Assign(assignments) => assign(out, assignments.as_slice()),
        ItemKind::Always(event, body) => always(out, event, body),
        ItemKind::For(_, _) => out.push_str("for"),
        ItemKind::If(_, _, _) => out.push_str("if"),
        ItemKind::Generate(_) => out.push_str("generate"),
        _ => out.push_str("item"),
    }
}

fn assign(out: &mut String, assignments: &[Assignment]) -> Result<(), AllocError> {
    out.push_str("assign")?;
    for assignment in assignments {
        operand(out, " ", &assignment.value)?;
    }
    Ok(())
}

fn always(out: &mut String, event: &Event, body: &Stmt) -> Result<(), AllocError> {
    out.push_str("always ")?;
    event_shape(out, event)?;
    inner(out, " ", body)
}

fn event_shape(out: &mut String, event: &Event) -> Result<(), AllocError> {
    match &event.kind {
        EventKind::Bare => out.push_str("bare"),
        EventKind::Spaced => out.push_str("spaced"),
        EventKind::OpenJoined => out.push_str("open joined"),
        EventKind::CloseJoined => out.push_str("close joined"),
        EventKind::Posedge(clock) => word(out, "posedge ", clock.bytes()),
    }
}

#[cycle(stmt)]
fn stmt(out: &mut String, statement: &Stmt) -> Result<(), AllocError> {
    match &statement.kind {
        StmtKind::Begin(_, _) => out.push_str("begin"),
        StmtKind::Case(_, _, _) => out.push_str("case"),
        StmtKind::Assign(_, _, _) => out.push_str("assign"),
        StmtKind::Empty => out.push_str("empty"),
        StmtKind::Assume(value) => operand(out, "assume ", value),
        StmtKind::If(condition, first, None) => {
            operand(out, "(if ", condition)?;
            inner(out, " ", first)?;
            out.push_str(")")
        }
        StmtKind::If(condition, first, Some(second)) => {
            operand(out, "(if ", condition)?;
            inner(out, " ", first)?;
            inner(out, " else ", second)?;
            out.push_str(")")
        }
    }
}

/// A statement behind the words before it.
#[cycle(stmt)]
fn inner(out: &mut String, before: &str, statement: &Stmt) -> Result<(), AllocError> {
    out.push_str(before)?;
    stmt(out, statement)
}

#[cycle(expr)]
fn expr(out: &mut String, value: &Expr) -> Result<(), AllocError> {
    match &value.kind {
        ExprKind::Number(number) => write!(out, "{}", number.value),
        ExprKind::Name(name, _) => word(out, "", name.bytes()),
        ExprKind::Paren(inner) => {
            operand(out, "[", inner)?;
            out.push_str("]")
        }
        ExprKind::Unary(_, of) => {
            operand(out, "(unary ", of)?;
            out.push_str(")")
        }
        ExprKind::Binary(operator, left, right) => {
            operand(out, "(", left)?;
            operand(out, operator_shape(*operator), right)?;
            out.push_str(")")
        }
        ExprKind::Conditional(condition, first, second) => {
            operand(out, "(", condition)?;
            operand(out, " ? ", first)?;
            operand(out, " : ", second)?;
            out.push_str(")")
        }
        ExprKind::Concat(_) => out.push_str("concatenation"),
        ExprKind::Repeat(_, _) => out.push_str("replication"),
        ExprKind::Cast(_, _) => out.push_str("cast"),
    }
}

/// An expression behind the words before it.
#[cycle(expr)]
fn operand(out: &mut String, before: &str, value: &Expr) -> Result<(), AllocError> {
    out.push_str(before)?;
    expr(out, value)
}

/// The operator with a blank on each side.
fn operator_shape(operator: BinaryOperator) -> &'static str {
    match operator {
        BinaryOperator::Multiply => " * ",
        BinaryOperator::Divide => " / ",
        BinaryOperator::Remainder => " % ",
        BinaryOperator::Add => " + ",
        BinaryOperator::Subtract => " - ",
        BinaryOperator::ShiftLeft => " << ",
        BinaryOperator::ShiftRight => " >> ",
        BinaryOperator::ArithmeticShiftLeft => " <<< ",
        BinaryOperator::ArithmeticShiftRight => " >>> ",
        BinaryOperator::Less => " < ",
        BinaryOperator::LessEqual => " <= ",
        BinaryOperator::Greater => " > ",
        BinaryOperator::GreaterEqual => " >= ",
        BinaryOperator::Equal => " == ",
        BinaryOperator::NotEqual => " != ",
        BinaryOperator::CaseEqual => " === ",
        BinaryOperator::CaseNotEqual => " !== ",
        BinaryOperator::BitwiseAnd => " & ",
        BinaryOperator::BitwiseXor => " ^ ",
        BinaryOperator::BitwiseXnor => " ~^ ",
        BinaryOperator::BitwiseXnorCaretFirst => " ^~ ",
        BinaryOperator::BitwiseOr => " | ",
        BinaryOperator::LogicalAnd => " && ",
        BinaryOperator::LogicalOr => " || ",
    }
}
