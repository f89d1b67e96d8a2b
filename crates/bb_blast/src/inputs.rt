//! The inputs of a graph: one for each bit of each source.
ghost use Rattle.std.specs.Prelude.{◌≡◌, ◌+◌, ◌*◌, ◌++◌, ◌<◌, ◌≤◌, ◌^◌};
ghost use Rattle.std.specs.Prelude.{length, sum, IfOk, OnOk};
ghost use Rattle.bb_aig.specs.Graph.{inputs_of};
ghost use Rattle.bb_blast.specs.Choice.{HasInputsAlone, literals_from, table_from, places_from, all_places};

use crate::places::Placed;
use bb_aig::{Aig, Lit};
use fv_text::{List, Memory};
use std::alloc::Global;

/// Adds an input for a bit of a source.
fn add_input(aig: &mut Aig, places: &mut List<Placed>, source: u32, bit: u32) -> Result<Lit, Memory>
    requires { HasInputsAlone aig.old }
    ensures inputs { OnOk result (HasInputsAlone aig.new) }
    ensures counted { OnOk result (inputs_of aig.new ≡ inputs_of aig.old + 1) }
    ensures lit { IfOk result (λ l. l ≡ 2 * (inputs_of aig.old + 1)) }
    ensures placed { OnOk result (places.new ≡ places.old ++ places_from source bit (inputs_of aig.old) 1) }
{
    let lit = aig.input()?;
    let node = lit / 2;
    places.push(Placed { source, bit, node })?;
    Ok(lit)
}

/// Adds the inputs for a source, the lowest bit first.
fn add_source(
    alloc: Global,
    aig: &mut Aig,
    places: &mut List<Placed>,
    source: u32,
    width: u32,
) -> Result<List<Lit>, Memory>
    requires { HasInputsAlone aig.old }
    ensures inputs { OnOk result (HasInputsAlone aig.new) }
    ensures counted { OnOk result (inputs_of aig.new ≡ inputs_of aig.old + width) }
    ensures word { IfOk result (λ r. r ≡ literals_from (inputs_of aig.old) width) }
    ensures placed { OnOk result (places.new ≡ places.old ++ places_from source 0 (inputs_of aig.old) width) }
{
    let mut word = List::new(alloc);
    for bit in 0..width {
        let lit = add_input(aig, places, source, bit)?;
        word.push(lit)?;
    }
    Ok(word)
}

/// The inputs for all sources: which bits they are, and the literals of each source.
#[derive(Drop)]
pub(crate) struct Sources {
    pub places: List<Placed>,
    pub words: List<List<Lit>>,
}

/// Adds the inputs for all sources, one source after the other.
pub(crate) fn add_sources(alloc: Global, aig: &mut Aig, widths: &[u32]) -> Result<Sources, Memory>
    requires first { HasInputsAlone aig.old }
    requires none { inputs_of aig.old ≡ 0 }
    requires few { length widths.now < 2 ^ 32 }
    ensures inputs { OnOk result (HasInputsAlone aig.new) }
    ensures counted { OnOk result (inputs_of aig.new ≡ sum widths.now) }
    ensures words { IfOk result (λ s. s.words ≡ table_from 0 widths.now) }
    ensures places { IfOk result (λ s. s.places ≡ all_places 0 0 widths.now) }
{
    let mut places = List::new(alloc);
    let mut words = List::new(alloc);
    for (source, width) in widths.iter().enumerate() {
        let word = add_source(alloc, aig, &mut places, source as u32, *width)?;
        words.push(word)?;
    }
    Ok(Sources { places, words })
}
