//! Values at first, written into cells (IEEE 1364-2005, sections 6.2.1 and 9.9.1).

ghost use Rattle.std.specs.Prelude.{◌≡◌, OnOk, true};
ghost use Rattle.vl_tree.specs.Expr as tree;
ghost use Rattle.vl_mean.specs.Constants as constants;
ghost use Rattle.vl_mean.specs.FlatLaw.{IsAssigned, is_variable};
ghost use Rattle.vl_mean.specs.Parts.{here};
ghost use Rattle.vl_lower_assign.specs.Frames.{IsFrame, cells_of};
ghost use Rattle.vl_lower_stmt.specs.Layout.{IsLayout};
ghost use Rattle.vl_lower_stmt.specs.First.{Starts, written_by};

use crate::assignment::assign;
use crate::layout::Layout;
use fv_text::{Memory, Number, Pos};
use vl_lower_assign::Frame;
use vl_mean::{Const, Start};
use vl_tree::{AssignKind, Expr, ExprKind};
use wn_net::Net;

/// A constant as a number with a size.
fn sized(value: &Const) -> Number
    ensures { result ≡ constants.number_of value.now }
{
    Number {
        sized: true,
        signed: value.signed,
        width: value.width,
        value: value.value,
        wild: 0,
        unknown: 0,
    }
}

/// A constant as an expression.
fn number_of(value: &Const) -> Expr
    ensures { result ≡ tree.number here (constants.number_of value.now) }
{
    Expr {
        pos: Pos {
            file: 1,
            line: 1,
            col: 1,
        },
        kind: ExprKind::Number(sized(value)),
    }
}

/// Writes a value at first into the cells of the next cycle.
pub(crate) fn write_start(
    net: &mut Net,
    layout: Layout<'_>,
    frame: &mut Frame,
    start: &Start,
) -> Result<(), Memory>
    requires layout { IsLayout layout.decls.now layout.places.now }
    requires frame { IsFrame net.old layout.decls.now (cells_of frame.old) }
    requires started { IsAssigned layout.decls.now is_variable true start.now.target }
    ensures { OnOk result (Starts layout.entry.decls.now net.old net.new (cells_of frame.old) (cells_of frame.new)
        (written_by layout.entry.decls.now start.now)) }
{
    let value = number_of(&start.value);
    Ok(assign(
        net,
        layout,
        frame,
        None,
        &start.target,
        AssignKind::Nonblocking,
        &value,
    )?)
}
