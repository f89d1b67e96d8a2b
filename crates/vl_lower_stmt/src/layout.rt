//! In which cells the numbers of declared names stand.
#![tactic(auto)]

ghost use Rattle.std.specs.Prelude.{◌≡◌, ◌≤◌, All, IfOk};
ghost use Rattle.vl_mean.specs.FlatLaw.{IsKept, all_names_count};
ghost use Rattle.vl_lower_expr.specs.Bound.{bound};
ghost use Rattle.vl_lower_stmt.specs.Layout as spec;

use fv_text::{List, Memory};
use std::alloc::Global;
use vl_flow_cells::cell_count;
use vl_lower_expr::{Bindings, Place};
use vl_mean::Env;
use vl_size::{Decl, Decls};
use wn_net::NodeId;

/// The declarations of a design, and in which cells their numbers stand.
#[derive(Clone, Copy)]
pub struct Layout<'a> {
    pub alloc: Global,
    pub decls: &'a Decls,
    pub places: &'a [Place],
    /// Some environment: constants have one value over each.
    pub env: &'a Env,
}

/// Names over these cells.
pub(crate) fn names_over<'a>(layout: Layout<'a>, cells: &'a [NodeId]) -> Bindings<'a>
    ensures { bound result
        ≡ record { decls = layout.entry.decls.now; places = layout.entry.places.now; cells = cells.now } }
{
    Bindings {
        decls: layout.decls,
        places: layout.places,
        cells,
        env: layout.env,
    }
}

/// Where the number of a vector, or the words of a memory, stand from a cell on.
fn place_at(decl: &Decl, first: usize) -> Place
    ensures { result ≡ spec.place_at decl.now first }
{
    match decl.words {
        None => Place::Vector(first),
        Some(_) => Place::Words(first),
    }
}

/// The places of declarations that a design without hierarchy may have, in time linear in the names.
pub fn places_of(alloc: Global, decls: &Decls) -> Result<List<Place>, Memory>
    requires kept { All IsKept decls.now }
    requires few { all_names_count decls.now ≤ 200000 }
    ensures { IfOk result (spec.IsLayout decls.now) }
{
    let mut places = List::new(alloc);
    let mut next = 0;
    for index in 0..decls.len() {
        match decls.get(index) {
            None => unreachable!(),
            Some(decl) => {
                places.push(place_at(decl, next))?;
                next += cell_count(decl) as usize;
            }
        }
    }
    Ok(places)
}
