//! A design without hierarchy as it is written: scopes, full names and parts.
//!
//! - Scopes as a design is written out without hierarchy: what each name in them stands for under its full name, and
//!   which constants names mean.
//! - Expressions, targets and statements as they stand in a design without hierarchy: with full names, and with numbers
//!   in place of constants.
//! - A design without hierarchy while it is written: declarations, drivers and values at first, each behind the others.
#![tactic(auto)]

mod attributes;
mod draft;
pub mod draft_law;
mod exprs;
mod flat_constants;
mod full_constants;
mod named;
mod names;
mod path;
mod scope;
mod scopes;
mod stmts;
mod targets;
mod writing;

pub use draft::Draft;
pub use exprs::flat_expr;
pub use path::Path;
pub use scope::Scope;
pub use scopes::Scopes;
pub use targets::flat_lval;
pub use writing::{write_clocked, write_combinational, write_equation};
