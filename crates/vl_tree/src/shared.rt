//! That the public types may be shared among threads.

use crate::declaration::{Declaration, DeclaredName, HeaderParameter, Port};
use crate::expr::Expr;
use crate::item::Item;
use crate::lval::Lval;
use crate::part::{Assignment, Event, Instance, LoopHead};
use crate::stmt::Stmt;

fn is_shared<T: Send + Sync>(_value: &T) {}

/// Trees may be shared, with all that they hold.
pub(crate) fn trees_are_shared(stmt: &Stmt, lval: &Lval, expr: &Expr) {
    is_shared(stmt);
    is_shared(lval);
    is_shared(expr);
}

pub(crate) fn declarations_are_shared(
    port: &Port,
    parameter: &HeaderParameter,
    name: &DeclaredName,
) {
    is_shared(port);
    is_shared(parameter);
    is_shared(name);
}

pub(crate) fn parts_are_shared(
    event: &Event,
    instance: &Instance,
    head: &LoopHead,
    assignment: &Assignment,
    declaration: &Declaration,
) {
    is_shared(event);
    is_shared(instance);
    is_shared(head);
    is_shared(assignment);
    is_shared(declaration);
}

pub(crate) fn items_are_shared(item: &Item) {
    is_shared(item);
}
