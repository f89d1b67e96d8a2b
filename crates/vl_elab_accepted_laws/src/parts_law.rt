//! That the parts of items, ports and connections which aren't refused are known.
ghost use Rattle.std.specs.Prelude.{◌≡◌, ℕ, List, []};
ghost use Rattle.vl_tree.specs.declared.declaration.FullPort.{FullPort};
ghost use Rattle.vl_tree.specs.declared.declaration.Port.{Port};
ghost use Rattle.vl_tree.specs.declared.source.Module.{Module};
ghost use Rattle.vl_tree.specs.ExprWellFormed.{IsName, IsValue};
ghost use Rattle.vl_tree.specs.Item.{Item};
ghost use Rattle.vl_tree.specs.WellFormed.{IsWellFormed};
ghost use Rattle.vl_tree.specs.declared.part.Connection.{Connection};
ghost use Rattle.vl_mean.specs.Parts.{item_parts, step_parts};
ghost use Rattle.vl_mean.specs.Scopes.{Scope};
ghost use Rattle.vl_mean.specs.Runs.{Each};
ghost use Rattle.vl_mean.specs.Walk.{Place, Use, connection, port};
ghost use Rattle.vl_mean_flat.specs.Flattened.{Known};
ghost use Rattle.vl_elab_spec.specs.Items.{connection_refusals, inner_meanings, item_refusals, port_refusals};
ghost use Rattle.vl_elab_spec.specs.Meanings.{meanings_at};
ghost use Rattle.vl_elab_accepted_laws.specs.Sized.{AreSound};
ghost use Rattle.vl_elab_accepted_laws.specs.Right.{AreRight};
ghost use Rattle.vl_elab_accepted_laws.specs.Joined.{PortsAreObjects};

/// Where an item isn't refused, and names in its place mean what they stand for, each name in its parts is a constant
/// or declared, what is assigned is no constant, and what begins with a value has 1 to 128 bits.
#[tactic(auto, using(crate::proofs::Parting::known_item))]
pub fn items_are_known()
    ensures { (ms : List Module) (at : Place) (x : Item) → AreRight (meanings_at at) at.scopes
        → AreSound (meanings_at at) → IsWellFormed x → item_refusals ms at x ≡ [] → Each Known (item_parts at x) }
{}

/// The same of a port.
pub fn ports_are_known()
    ensures { (at : Place) (u : Use) (p : Port) (q : FullPort) → AreRight (meanings_at at) at.scopes
        → AreSound (meanings_at at) → IsName q.name → IsValue q.value → port_refusals at p.pos q ≡ []
        → Each Known (step_parts (port at u p q)) }
{}

/// The same of what an instance joins to a port of its module, whose ports are nets and variables in it.
pub fn connections_are_known()
    ensures { (at : Place) (m : Module) (u : Use) (inside : List Scope) (given : List (List ℕ)) (x : Connection)
        → AreRight (meanings_at at) at.scopes → AreSound (meanings_at at) → AreRight (inner_meanings m u) inside
        → AreSound (inner_meanings m u) → PortsAreObjects m u → IsValue x.value
        → connection_refusals at m u given x ≡ [] → Each Known (step_parts (connection at m u inside given x)) }
{}
