//! The table by which an equal node is found.
ghost use Rattle.std.specs.Prelude.{◌≡◌, if◌then◌else◌, None, Some, OnOk, OnErr, [], ◌∷◌};
ghost use Rattle.std.specs.Ordering.{nat_cmp, is_eq};
ghost use Rattle.std.specs.Cmp.Lexicographic.{slice_cmp};
ghost use Rattle.wn_net.specs.declared.node.Node.{Node};
ghost use Rattle.wn_opt.specs.Table as spec;
ghost use Rattle.wn_opt.specs.Table.{place_in};

use fv_text::Memory;
use std::alloc::Global;
use std::collections::BTreeMap;
use wn_net::{Node, NodeId};

/// The numbers of nodes. An ordered map: a look-up takes steps by the logarithm of its size, whatever nodes it has.
#[derive(Drop)]
pub(crate) struct Table {
    places: BTreeMap<[u64; 4], NodeId>,
}

/// Two operands behind the place of a kind.
fn of_two(kind: u64, a: NodeId, b: NodeId) -> [u64; 4]
    ensures { result ≡ kind ∷ a ∷ b ∷ 0 ∷ [] }
{
    [kind, a, b, 0]
}

/// What orders the nodes: the place of the kind among the kinds, and what the node holds.
fn key(node: &Node) -> [u64; 4]
    ensures { result ≡ spec.key node.now }
{
    match *node {
        Node::Konst(word) => [0, u64::from(word.width), word.high, word.low],
        Node::Input(i) => of_two(1, u64::from(i), 0),
        Node::Reg(i) => of_two(2, u64::from(i), 0),
        Node::Read(mem, a) => of_two(3, u64::from(mem), a),
        Node::Not(a) => of_two(4, a, 0),
        Node::And(a, b) => of_two(5, a, b),
        Node::Or(a, b) => of_two(6, a, b),
        Node::Xor(a, b) => of_two(7, a, b),
        Node::Add(a, b) => of_two(8, a, b),
        Node::Sub(a, b) => of_two(9, a, b),
        Node::Mul(a, b) => of_two(10, a, b),
        Node::Eq(a, b) => of_two(11, a, b),
        Node::Ult(a, b) => of_two(12, a, b),
        Node::Slt(a, b) => of_two(13, a, b),
        Node::Shl(a, b) => of_two(14, a, b),
        Node::Lshr(a, b) => of_two(15, a, b),
        Node::Ashr(a, b) => of_two(16, a, b),
        Node::Concat(a, b) => of_two(17, a, b),
        Node::Mux(c, a, b) => [18, c, a, b],
        Node::Slice(a, low, width) => [19, a, u64::from(low), u64::from(width)],
        Node::Zext(a, width) => of_two(20, a, u64::from(width)),
        Node::Sext(a, width) => of_two(21, a, u64::from(width)),
    }
}

impl Table {
    pub(crate) fn new(alloc: Global) -> Table
        ensures { (x : Node) → place_in result x ≡ None }
    {
        Table {
            places: BTreeMap::new(alloc),
        }
    }

    /// The number of an equal node.
    pub(crate) fn find(&self, node: &Node) -> Option<NodeId>
        ensures { result ≡ place_in self.now node.now }
    {
        self.places.get(&key(node)).copied()
    }

    /// Gives the node its number.
    pub(crate) fn put(&mut self, node: &Node, id: NodeId) -> Result<(), Memory>
        ensures here { OnOk result (place_in self.new node.now ≡ Some id) }
        ensures others { OnOk result ((x : Node) → place_in self.new x
            ≡ (if is_eq (slice_cmp nat_cmp (spec.key node.now) (spec.key x)) then Some id else place_in self.old x)) }
        ensures same { OnErr result ((x : Node) → place_in self.new x ≡ place_in self.old x) }
    {
        if self.places.insert(key(node), id).is_err() {
            return Err(Memory);
        }
        Ok(())
    }
}
