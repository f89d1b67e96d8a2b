//! Where a design becomes too large: at the node, or the name, that is one too many.
ghost use Rattle.std.specs.Prelude.{◌≡◌, ◌-◌, ◌∷◌, ◌++◌, [], ℕ, Some, None, IfOk, OnOk, drop, nat_lt, if◌then◌else◌};
ghost use Rattle.vl_size.specs.Places.{earlier_place};
ghost use Rattle.vl_mean.specs.ConstantFaults.{capped};
ghost use Rattle.vl_tree.specs.ItemView.{block as block_of};
ghost use Rattle.vl_mean.specs.Walk.{Place, Step, block_step, item as item_step};
ghost use Rattle.vl_elab_spec.specs.Counts.{step_names, step_nodes, step_pos};
ghost use Rattle.vl_elab_spec.specs.Meanings.{meanings_at};
ghost use Rattle.vl_elab_spec.specs.NodePlaces as places;
ghost use Rattle.vl_elab_spec.specs.Refused as refused;
ghost use Rattle.vl_elab_spec.specs.Walked.{AreTotals};
ghost use Rattle.vl_elab_scope.specs.Alike.{Alike};
ghost use Rattle.vl_elab_scope.specs.Seen.{innermost};
ghost use Rattle.vl_elab_const.specs.Numbers.{HaveNumbers};
ghost use Rattle.vl_elab_places.specs.Judged as spec;

use crate::blocks::{block_pos, pass_inner};
use crate::cursor::Cursor;
use crate::items::{pass_item, pass_parameter, pass_range, pass_value};
use crate::names::name_behind;
use fv_text::{Memory, Pos};
use std::alloc::Global;
use vl_elab_count::Added;
use vl_elab_scope::Names;
use vl_elab_spec::Totals;
use vl_size::earlier::earlier_place;
use vl_tree::{Block, Expr, Item, Parameter, Range};

/// Whether it is too large with these.
fn is_past(added: Added, before: Totals) -> bool
    ensures { (x : Step) (t : refused.Totals) → added.nodes ≡ capped (step_nodes x)
        → added.names ≡ capped (step_names x) → AreTotals before t
        → result ≡ refused.is_too_large (refused.counted t x) }
{
    let sum = before.with(added.nodes, added.names);
    sum.is_too_large()
}

/// The earlier of two places that may be there, or else this one.
fn first_place(node: Option<Pos>, name: Option<Pos>, pos: Pos) -> Pos
    ensures { result ≡ refused.pos_or pos (earlier_place node name) }
{
    match earlier_place(node, name) {
        None => pos,
        Some(place) => place,
    }
}

/// Where the parameter of a module's head stands, or the node of it that is one too many.
pub fn header_place(parameter: &Parameter, added: Added, before: Totals) -> Pos
    ensures { (x : Step) (t : refused.Totals) → places.node_places x ≡ places.parameter_places (parameter.now ∷ [])
        → ((n : ℕ) → places.name_place n x ≡ None) → step_pos x ≡ parameter.now.pos
        → added.nodes ≡ capped (step_nodes x) → added.names ≡ capped (step_names x) → AreTotals before t
        → result ≡ spec.judged_pos t x }
{
    if is_past(added, before) {
        let start = Cursor::new(before.nodes_left());
        let behind = pass_parameter(parameter, start);
        first_place(behind.found, None, parameter.pos)
    } else {
        parameter.pos
    }
}

/// The same of what an instance gives to a parameter, or joins to a port, at this place.
pub fn given_place(pos: Pos, value: &Option<Expr>, added: Added, before: Totals) -> Pos
    ensures { (x : Step) (t : refused.Totals) → places.node_places x ≡ pos ∷ places.value_places value.now
        → ((n : ℕ) → places.name_place n x ≡ None) → step_pos x ≡ pos → added.nodes ≡ capped (step_nodes x)
        → added.names ≡ capped (step_names x) → AreTotals before t → result ≡ spec.judged_pos t x }
{
    if is_past(added, before) {
        let start = Cursor::new(before.nodes_left());
        let at = start.moved(1, pos);
        let behind = pass_value(value, at);
        first_place(behind.found, None, pos)
    } else {
        pos
    }
}

/// Where a block of a generate construct stands, which is one node.
pub fn block_place(block: &Block) -> Pos
    ensures { (t : refused.Totals) (at : Place) → result ≡ spec.judged_pos t (block_step at (block_of block.now)) }
{
    block_pos(block)
}

fn name_at(pos: Pos, before: u64) -> Option<Pos>
    ensures { result ≡ (if nat_lt before 1 then Some pos else None) }
{
    if before < 1 { Some(pos) } else { None }
}

/// The same of a port at this place, which is a name too.
pub fn port_place(
    pos: Pos,
    range: &Option<Range>,
    value: &Option<Expr>,
    added: Added,
    before: Totals,
) -> Pos
    ensures { (x : Step) (t : refused.Totals)
        → places.node_places x ≡ pos ∷ places.range_places range.now ++ places.value_places value.now
        → ((n : ℕ) → places.name_place n x ≡ (if nat_lt n 1 then Some pos else None)) → step_pos x ≡ pos
        → added.nodes ≡ capped (step_nodes x) → added.names ≡ capped (step_names x) → AreTotals before t
        → result ≡ spec.judged_pos t x }
{
    if is_past(added, before) {
        let start = Cursor::new(before.nodes_left());
        let at = start.moved(1, pos);
        let between = pass_range(range, at);
        let behind = pass_value(value, between);
        let name = name_at(pos, before.names_left());
        first_place(behind.found, name, pos)
    } else {
        pos
    }
}

fn large_item(
    alloc: Global,
    item: &Item,
    names: &mut Names,
    numbers: &mut Names,
    before: Totals,
) -> Result<Pos, Memory>
    requires { numbers.old ≡ innermost numbers.old ∷ drop 1 numbers.old }
    ensures names { OnOk result (names.new ≡ names.old) }
    ensures numbers { OnOk result (numbers.new ≡ numbers.old) }
    ensures place { IfOk result (λ p. (at : Place) (t : refused.Totals) → Alike names.old (meanings_at at)
        → HaveNumbers numbers.old at.scopes → HaveNumbers (drop 1 numbers.old) at.around → AreTotals before t
        → p ≡ refused.large_pos t (item_step at item.now)) }
{
    let start = Cursor::new(before.nodes_left());
    let own = pass_item(item, start);
    let behind = pass_inner(alloc, item, own, names, numbers)?;
    let name = name_behind(alloc, item, before.names_left(), numbers)?;
    Ok(first_place(behind.found, name, item.pos))
}

/// The same of an item, with a loop's turns. `names`: what names mean at it; `numbers`: the numbers of constants there,
/// refused or not; the innermost names say what hides constants in its scope.
pub fn item_place(
    alloc: Global,
    item: &Item,
    added: Added,
    names: &mut Names,
    numbers: &mut Names,
    before: Totals,
) -> Result<Pos, Memory>
    requires { numbers.old ≡ innermost numbers.old ∷ drop 1 numbers.old }
    ensures names { OnOk result (names.new ≡ names.old) }
    ensures numbers { OnOk result (numbers.new ≡ numbers.old) }
    ensures place { IfOk result (λ p. (at : Place) (t : refused.Totals) → Alike names.old (meanings_at at)
        → HaveNumbers numbers.old at.scopes → HaveNumbers (drop 1 numbers.old) at.around
        → added.nodes ≡ capped (step_nodes (item_step at item.now))
        → added.names ≡ capped (step_names (item_step at item.now)) → AreTotals before t
        → p ≡ spec.judged_pos t (item_step at item.now)) }
{
    let past = is_past(added, before);
    if past {
        return large_item(alloc, item, names, numbers, before);
    }
    Ok(item.pos)
}
