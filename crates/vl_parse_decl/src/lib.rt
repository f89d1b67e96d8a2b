//! Reading tokens as the parts of modules that hold no statements and items: lists, attributes, declarations, targets,
//! connections and ports (IEEE 1364-2005, sections A.1 to A.4, A.8.5 and A.9.1).
#![tactic(auto)]

mod attribute;
mod declaration;
mod list;
mod lval;
mod part;
mod port;

pub use attribute::{Before, read_attributes};
pub use declaration::read_shape;
pub use list::{Element, read_list};
pub use lval::read_lval;
pub use part::{read_event, read_head, read_instance};
pub use port::{read_parameters, read_ports};
