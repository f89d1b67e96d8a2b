//! Declarations, and the sizes and signs of expressions over them.
#![tactic(auto)]

mod constant;
mod context;
mod decl;
mod decls;
mod divisor;
pub mod earlier;
mod numbers;
pub mod operation;
mod own;
pub mod place;
mod row;
pub mod select;
mod shared;
mod sign;
mod size;
pub mod way;

pub use constant::is_constant;
pub use context::Context;
pub use decl::{Class, Decl};
pub use decls::Decls;
pub use divisor::{own_context, own_zero_divisor, selects_zero_divisor, size_of, zero_divisor};
pub use own::Own;
pub use sign::sign_of;
pub use size::self_size;
pub use way::Way;
