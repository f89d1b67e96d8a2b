//! The whole of lowering.

ghost use Rattle.std.specs.Prelude.{◌≡◌, IfOk};
ghost use Rattle.vl_lower_cell_laws.specs.Few.{AreFew};
ghost use Rattle.vl_mean.specs.FlatParts.{flat_parts};
ghost use Rattle.vl_lower.specs.Design.{AreKeepsOf, Declares};
ghost use Rattle.vl_lower_stmt.specs.Layout.{IsLayout};
ghost use Rattle.vl_lower_spec.specs.Evaluations.{IsLowered};

use crate::close::{assume_all, close_cells};
use crate::declare::declare_sources;
use crate::keeps::keeps_of;
use crate::list::entries_of;
use crate::phase::{settle_cells, tick_cells};
use crate::sources::Sources;
use fv_text::Memory;
use std::alloc::Global;
use vl_flow::Ordered;
use vl_lower_cell_laws::Keep;
use vl_lower_expr::Place;
use vl_lower_stmt::{Layout, places_of};
use vl_mean::Env;
use vl_size::Decls;
use wn_net::{Names, Net};

/// A net with its names.
#[derive(Drop)]
pub struct Lowered {
    pub net: Net,
    pub names: Names,
}

/// The net of an ordered design: its evaluations are exactly the maps that the design allows, one for each choice of
/// inputs and state, and its steps, starts and assumptions are the design's; its inputs, registers and words are few
/// enough for frames of its runs. Takes time and nodes about linear in the design's weight.
pub fn lower(alloc: Global, ordered: &Ordered) -> Result<Lowered, Memory>
    ensures { IfOk result (λ lowered. IsLowered (flat_parts ordered.now.flat) lowered.net lowered.names
        × AreFew lowered.net) }
{
    let keeps = keeps_of(alloc, &ordered.flat)?;
    Ok(lower_over(alloc, ordered, keeps.as_slice())?)
}

/// The same by what is kept of each cell.
fn lower_over(alloc: Global, ordered: &Ordered, keeps: &[Keep]) -> Result<Lowered, Memory>
    requires { AreKeepsOf (flat_parts ordered.now.flat) ordered.now.flat.decls keeps.now }
    ensures { IfOk result (λ lowered. IsLowered (flat_parts ordered.now.flat) lowered.net lowered.names
        × AreFew lowered.net) }
{
    let sources = declare_sources(alloc, &ordered.flat, keeps)?;
    let places = places_of(alloc, &ordered.flat.decls)?;
    Ok(lower_sources(alloc, ordered, keeps, places.as_slice(), sources)?)
}

/// The same by its inputs, registers, memories and cells, and by the cells of each name.
fn lower_sources(
    alloc: Global,
    ordered: &Ordered,
    keeps: &[Keep],
    places: &[Place],
    sources: Sources,
) -> Result<Lowered, Memory>
    requires kept { AreKeepsOf (flat_parts ordered.now.flat) ordered.now.flat.decls keeps.now }
    requires places { IsLayout ordered.now.flat.decls places.now }
    requires declared { Declares (flat_parts ordered.now.flat) ordered.now.flat.decls keeps.now sources }
    ensures { IfOk result (λ lowered. IsLowered (flat_parts ordered.now.flat) lowered.net lowered.names
        × AreFew lowered.net) }
{
    let flat = &ordered.flat;
    let drivers = flat.drivers.as_slice();
    let Sources {
        mut net,
        inputs,
        regs,
        mems,
        cells,
        register_cells,
        memory_cells,
    } = sources;
    let env = Env::new(alloc, Decls::new(alloc));
    let layout = Layout {
        alloc,
        decls: &flat.decls,
        places,
        env: &env,
    };
    let firsts = memory_cells.as_slice();
    let settled = settle_cells(
        &mut net,
        layout,
        cells.as_slice(),
        firsts,
        drivers,
        ordered.sequence.as_slice(),
    )?;
    let ticked = tick_cells(&mut net, layout, &settled.frame, drivers)?;
    let next = ticked.frame.next.as_slice();
    let tracks = ticked.frame.tracks.as_slice();
    let _whole = net.regs();
    close_cells(
        alloc,
        &mut net,
        next,
        tracks,
        regs.as_slice(),
        register_cells.as_slice(),
        memory_cells.as_slice(),
    )?;
    assume_all(&mut net, settled.assumed.as_slice())?;
    assume_all(&mut net, ticked.assumed.as_slice())?;
    let list = entries_of(
        alloc,
        &flat.decls,
        settled.frame.now.as_slice(),
        memory_cells.as_slice(),
    )?;
    let _end = net.regs();
    let names = Names {
        list,
        inputs,
        regs,
        mems,
    };
    Ok(Lowered { net, names })
}
