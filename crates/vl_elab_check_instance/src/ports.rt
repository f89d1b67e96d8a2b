//! The directions of a module's ports, by name.
ghost use Rattle.std.specs.Prelude.{◌≡◌, ℕ, List, IfOk, OnOk};
ghost use Rattle.vl_mean.specs.Walk as walk;
ghost use Rattle.vl_elab_scope.specs.Texts.{or_else};
ghost use Rattle.vl_elab_decls.specs.Clocks.{next_direction, port_text};
ghost use Rattle.vl_elab_check_instance.specs.Ports as spec;

use fv_text::{List, Memory, Text};
use indexmap::IndexMap;
use std::alloc::Global;
use vl_tree::{Direction, Module, Port, PortKind};

/// The directions of the ports of a module, by name; the first of a name counts.
#[derive(Drop)]
pub struct PortTable {
    directions: IndexMap<Vec<u8>, Direction>,
}

fn next_direction(last: Option<Direction>, kind: &PortKind) -> Option<Direction>
    ensures { result ≡ next_direction last kind.now }
{
    match kind {
        PortKind::Full(port) => Some(port.direction),
        PortKind::Short(_, _) => last,
    }
}

fn port_text(kind: &PortKind) -> &Text
    ensures { result.now ≡ port_text kind.now }
{
    match kind {
        PortKind::Full(port) => &port.name,
        PortKind::Short(text, _) => text,
    }
}

fn ports_of(all: &Option<List<Port>>) -> &[Port]
    ensures { result.now ≡ walk.written_ports all.now }
{
    match all {
        None => &[],
        Some(all) => all.as_slice(),
    }
}

impl PortTable {
    pub fn new(alloc: Global, module: &Module) -> Result<PortTable, Memory>
        ensures { IfOk result (λ table. spec.AreDirectionsOf table module.now) }
    {
        PortTable::of(alloc, ports_of(&module.ports))
    }

    fn of(alloc: Global, all: &[Port]) -> Result<PortTable, Memory>
        ensures { IfOk result (λ table. spec.AreDirections table all.now) }
    {
        let mut table = PortTable {
            directions: IndexMap::new(alloc),
        };
        let mut last = None;
        for port in all {
            last = next_direction(last, &port.kind);
            table.add_port(alloc, last, port_text(&port.kind))?;
        }
        Ok(table)
    }

    /// A port that is written short behind no other is none.
    fn add_port(
        &mut self,
        alloc: Global,
        direction: Option<Direction>,
        text: &Text,
    ) -> Result<(), Memory>
        ensures { OnOk result ((other : List ℕ) → spec.direction_in self.new other
            ≡ or_else (spec.direction_in self.old other) (spec.direction_if direction text.now other)) }
    {
        match direction {
            None => Ok(()),
            Some(direction) => self.add(text.copied(alloc)?, direction),
        }
    }

    /// Of two of a name the first counts.
    fn add(&mut self, name: Text, direction: Direction) -> Result<(), Memory>
        ensures { OnOk result ((other : List ℕ) → spec.direction_in self.new other
            ≡ or_else (spec.direction_in self.old other) (spec.named_value name direction other)) }
    {
        if self.directions.get(name.bytes()).is_some() {
            return Ok(());
        }
        let key = name.into_vec()?;
        self.directions.insert(key, direction)?;
        Ok(())
    }

    /// None exactly where no port has the name.
    pub fn direction(&self, name: &Text) -> Option<Direction>
        ensures { result ≡ spec.direction_in self.now name.now }
    {
        match self.directions.get(name.bytes()) {
            None => None,
            Some(direction) => Some(*direction),
        }
    }
}
