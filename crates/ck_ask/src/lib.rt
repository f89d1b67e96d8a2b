//! Questions: what is sought in the runs of a design, and the node that shows where a run gives it.
#![tactic(auto)]

mod asking;
mod question;
mod shared;
mod zb_check;
mod zb_list;

pub use asking::ask;
pub use question::Question;
pub use zb_check::ZbCheck;
pub use zb_list::zb_checks;
