//! Clocked blocks that act at the clock's edge.

ghost use Rattle.std.specs.Prelude.{◌≡◌, [], All, IfOk, OnOk};
ghost use Rattle.vl_mean.specs.FlatLaw.{IsDriver};
ghost use Rattle.vl_lower_assign.specs.Frames.{IsFrame, cells_of};
ghost use Rattle.vl_lower_stmt.specs.Layout.{IsLayout};
ghost use Rattle.vl_lower_cell_laws.specs.Cycles.{Ticks, TicksAll};

use crate::handed::{hand_over, take_back};
use fv_text::{List, Memory};
use vl_lower_assign::Frame;
use vl_lower_stmt::{Layout, execute};
use vl_mean::{Driver, DriverKind};
use wn_net::{Net, NodeId};

/// Where a driver is a clocked block, it acts: the cells of the cycle are as before, those of the next cycle have what
/// it assigns. The frame keeps the nodes of what it assumes.
fn tick(net: &mut Net, layout: Layout<'_>, frame: &mut Frame, driver: &Driver) -> Result<(), Memory>
    requires layout { IsLayout layout.decls.now layout.places.now }
    requires frame { IsFrame net.old layout.decls.now (cells_of frame.old) }
    requires empty { frame.old.assumed ≡ [] }
    requires log { frame.old.log ≡ [] }
    requires driver { IsDriver layout.decls.now driver.now.what }
    ensures ticks { OnOk result (Ticks layout.entry.decls.now net.old net.new (cells_of frame.old) (cells_of frame.new)
        frame.new.assumed driver.now.what) }
    ensures now { OnOk result (frame.new.now.items ≡ frame.old.now.items) }
    ensures log { OnOk result (frame.new.log ≡ []) }
{
    if let DriverKind::Clocked(stmt) = &driver.what {
        execute(net, layout, frame, None, stmt)?;
        take_back(layout.alloc, frame);
    }
    Ok(())
}

/// The clocked blocks among drivers act, one after the other, each over the cells of the cycle. The answer: nodes that
/// are all other than 0 in a cycle exactly where what these blocks assume is.
pub fn tick_all(
    net: &mut Net,
    layout: Layout<'_>,
    frame: &mut Frame,
    drivers: &[Driver],
) -> Result<List<NodeId>, Memory>
    requires layout { IsLayout layout.decls.now layout.places.now }
    requires frame { IsFrame net.old layout.decls.now (cells_of frame.old) }
    requires empty { frame.old.assumed ≡ [] }
    requires log { frame.old.log ≡ [] }
    requires drivers { All (λ x. IsDriver layout.decls.now x.what) drivers.now }
    ensures ticks { IfOk result (λ nodes. TicksAll layout.entry.decls.now net.old net.new (cells_of frame.old)
        (cells_of frame.new) nodes drivers.now) }
    ensures now { OnOk result (frame.new.now.items ≡ frame.old.now.items) }
{
    let mut nodes = List::new(layout.alloc);
    for at in 0..drivers.len() {
        tick(net, layout, frame, &drivers[at])?;
        hand_over(layout.alloc, frame, &mut nodes)?;
    }
    Ok(nodes)
}
