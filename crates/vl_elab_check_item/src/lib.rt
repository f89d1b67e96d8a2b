//! Which refusal of a declaration, a parameter, a port, an assignment or the head of a loop is answered.
//!
//! - Which refusal of the parts of an item is answered: of declarations, parameters, ports, assignments and events.
//! - Which refusal of a generate loop's head is answered, and how far the loop goes.
#![tactic(auto)]

mod assigned;
mod declared;
mod head;
mod parameters;
mod ranges;
mod reach;
mod turn;

pub use assigned::{assignments_fault, event_fault};
pub use declared::{given_value, names_fault, port_fault};
pub use head::{has_value, head_fault};
pub use parameters::{override_fault, parameter_fault};
pub use ranges::{range_fault, width_fault};
pub use reach::{HeadValues, head_values};
pub use turn::{MOST_TURNS, enter_turn, next_turn};
