ghost use Rattle.std.specs.Prelude.{◌≤◌, All, IfOk, OnOk, true};
ghost use Rattle.vl_mean.specs.FlatLaw.{IsAssigned, IsKept, all_names_count, is_variable};
ghost use Rattle.vl_lower_assign.specs.Frames.{cells_of, cell_widths};
ghost use Rattle.wn_net.specs.Changes.{AddsNodes};
ghost use Rattle.vl_lower_stmt.specs.First.{AreFirst, IsZeroFrame};

use crate::layout::{Layout, places_of};
use crate::number::numbers_of;
use crate::start::write_start;
use crate::zeros::zero_cells;
use fv_text::{List, Memory};
use std::alloc::Global;
use vl_lower_assign::Frame;
use vl_mean::{Env, Start};
use vl_size::Decls;
use wn_net::Net;

/// A frame in which all numbers are 0.
fn zero_frame(alloc: Global, net: &mut Net, decls: &Decls) -> Result<Frame, Memory>
    requires { All IsKept decls.now }
    ensures adds { OnOk result (AddsNodes net.old net.new) }
    ensures zeros { IfOk result (λ frame. IsZeroFrame net.new decls.now (cells_of frame)) }
{
    let now = zero_cells(alloc, net, decls)?;
    let next = Vec::from_slice(alloc, now.as_slice())?;
    Ok(Frame {
        now,
        next,
        assumed: List::new(alloc),
        log: List::new(alloc),
        tracks: Vec::new(alloc),
    })
}

/// The numbers that values at first make of 0, one after the other: of each cell, by its number. Time is about linear
/// in the starts and in the names' words.
pub fn first_numbers(alloc: Global, starts: &[Start], decls: &Decls) -> Result<List<u128>, Memory>
    requires kept { All IsKept decls.now }
    requires few { all_names_count decls.now ≤ 200000 }
    requires started { All (λ x. IsAssigned decls.now is_variable true x.target) starts.now }
    ensures { IfOk result (AreFirst decls.now starts.now) }
{
    let places = places_of(alloc, decls)?;
    let env = Env::new(alloc, Decls::new(alloc));
    let layout = Layout {
        alloc,
        decls,
        places: places.as_slice(),
        env: &env,
    };
    let mut net = Net::new(alloc);
    let mut frame = zero_frame(alloc, &mut net, decls)?;
    for start in starts {
        write_start(&mut net, layout, &mut frame, start)?;
    }
    Ok(numbers_of(alloc, &net, frame.next.as_slice())?)
}
