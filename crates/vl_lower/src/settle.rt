//! Drivers that are settled in a frame.

ghost use Rattle.std.specs.Prelude.{◌≡◌, ℕ, [], false, true, All, IfOk, OnOk, Some, slice_get};
ghost use Rattle.vl_mean.specs.FlatLaw.{IsDriver};
ghost use Rattle.vl_flow_spec.specs.Drivers.{is_clocked};
ghost use Rattle.vl_flow_spec.specs.Sequence.{is_settled};
ghost use Rattle.vl_lower_assign.specs.Frames.{IsFrame, cells_of};
ghost use Rattle.vl_lower_stmt.specs.Layout.{IsLayout};
ghost use Rattle.vl_lower_cell_laws.specs.Cycles.{Settles, SettlesAll};

use crate::handed::hand_over;
use fv_text::{List, Memory};
use vl_lower_assign::Frame;
use vl_lower_stmt::{Layout, assign, execute};
use vl_mean::{Driver, DriverKind};
use vl_tree::AssignKind;
use wn_net::{Net, NodeId};

/// Settles a driver that isn't a clocked block. The frame keeps the nodes of what it assumes.
fn settle(
    net: &mut Net,
    layout: Layout<'_>,
    frame: &mut Frame,
    driver: &Driver,
) -> Result<(), Memory>
    requires layout { IsLayout layout.decls.now layout.places.now }
    requires frame { IsFrame net.old layout.decls.now (cells_of frame.old) }
    requires empty { frame.old.assumed ≡ [] }
    requires driver { IsDriver layout.decls.now driver.now.what }
    requires settled { is_clocked driver.now.what ≡ false }
    ensures { OnOk result (Settles layout.entry.decls.now net.old net.new (cells_of frame.old) (cells_of frame.new)
        frame.new.assumed driver.now.what) }
{
    match &driver.what {
        DriverKind::Assign(target, expr) => {
            Ok(assign(net, layout, frame, None, target, AssignKind::Blocking, expr)?)
        }
        DriverKind::Comb(stmt) => Ok(execute(net, layout, frame, None, stmt)?),
        DriverKind::Clocked(_) => unreachable!(),
    }
}

/// Settles drivers by their numbers, one after the other. The answer: nodes that are all other than 0 in a cycle
/// exactly where what these drivers assume is.
pub fn settle_all(
    net: &mut Net,
    layout: Layout<'_>,
    frame: &mut Frame,
    drivers: &[Driver],
    sequence: &[u32],
) -> Result<List<NodeId>, Memory>
    requires layout { IsLayout layout.decls.now layout.places.now }
    requires frame { IsFrame net.old layout.decls.now (cells_of frame.old) }
    requires empty { frame.old.assumed ≡ [] }
    requires drivers { All (λ x. IsDriver layout.decls.now x.what) drivers.now }
    requires sequence { (a i : ℕ) → slice_get sequence.now a ≡ Some i → is_settled (slice_get drivers.now i) ≡ true }
    ensures settled { IfOk result (λ nodes. SettlesAll layout.entry.decls.now net.old net.new (cells_of frame.old)
        (cells_of frame.new) nodes drivers.now sequence.now) }
    ensures empty { OnOk result (frame.new.assumed ≡ []) }
{
    let mut nodes = List::new(layout.alloc);
    for at in 0..sequence.len() {
        let number = sequence[at] as usize;
        settle(net, layout, frame, &drivers[number])?;
        hand_over(layout.alloc, frame, &mut nodes)?;
    }
    Ok(nodes)
}
