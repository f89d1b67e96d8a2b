use crate::declaration::{HeaderParameter, Port};
use crate::item::Item;
use fv_text::{List, Pos, Text};

/// A Verilog text: its modules in order (IEEE 1364-2005, section A.1.2). Without modules its place is 1:1 of file 1.
#[derive(Drop)]
pub struct Source {
    pub pos: Pos,
    pub modules: List<Module>,
}

/// `module name #(parameters) (ports); items endmodule` (IEEE 1364-2005, section 12.1).
#[derive(Drop)]
pub struct Module {
    pub pos: Pos,
    pub name: Text,
    /// None where no `#` stands there.
    pub parameters: Option<List<HeaderParameter>>,
    /// None where no brackets stand there.
    pub ports: Option<List<Port>>,
    pub items: List<Item>,
}
