ghost use Rattle.std.specs.Prelude.{◌≡◌, ◌&&◌, ◌<◌, ℕ, All, Bool, IfOk, IfSome, List, Some, is_none, length, nat_lt};
ghost use Rattle.std.specs.Prelude.{not, slice_get};
ghost use Rattle.fv_bit_sets.specs.Cells.{has};
ghost use Rattle.vl_flow_cells.specs.Numbering.{IsNumberingOf};
ghost use Rattle.vl_flow_check.specs.Layouts.{IsLayoutOf};
ghost use Rattle.vl_flow_order.specs.CellGroups.{AreGroupsOf};
ghost use Rattle.vl_mean.specs.FlatLaw.{IsDriver};
ghost use Rattle.vl_mean.specs.declared.driver.Driver.{Driver};
ghost use Rattle.vl_flow_spec.specs.Refusals.{first_below, with_two};
ghost use Rattle.vl_flow_spec.specs.Refusals as spec;
ghost use Rattle.vl_size.specs.declared.decl.Decl.{Decl};
ghost use Rattle.vl_flow_check.specs.Doubled.{Tells, TellsNames, TellsVectors, doubled_of};
ghost use Rattle.vl_flow_check.specs.Earliest.{listed};

use crate::earliest::{Earliest, earliest_of};
use crate::layout::{Layout, span_of};
use crate::name::name_of;
use crate::names::name_shares;
use crate::overlap::{Overlap, overlap_of};
use crate::share::Share;
use crate::vectors::bit_shares;
use fv_bit_sets::Bits;
use fv_text::{Memory, Pos, Text};
use std::alloc::Global;
use vl_flow_cells::Numbering;
use vl_mean::Driver;
use vl_size::Decls;

/// What drivers assign, and the bits that two of them have.
#[derive(Drop)]
struct Doubled {
    shares: Vec<Share>,
    bits: Bits,
}

/// The lowest bit of the cell. None exactly where it has none.
fn lowest_bit(bits: &Bits, cell: u64) -> Option<u32>
    ensures lowest { (p : ℕ → Bool) (width : ℕ) → ((i : ℕ) → has bits.now cell i ≡ (p i && nat_lt i width))
        → result ≡ first_below p width }
    ensures few { IfSome result (λ bit. bit < 128) }
{
    let mask = bits.mask(cell);
    if mask == 0 {
        return None;
    }
    Some(mask.trailing_zeros())
}

/// The name at a place, with the bit and the places, where there are two of them.
fn named_bit(
    alloc: Global,
    decls: &Decls,
    place: usize,
    bit: u32,
    earliest: Earliest,
) -> Result<Option<(Text, u32, Pos, Pos)>, Memory>
    requires { place < length decls.now }
    ensures { IfOk result (λ found. (d : Decl) → slice_get decls.now place ≡ Some d
        → found ≡ with_two d.name bit (listed earliest)) }
{
    match earliest {
        Earliest::Two(first, second) => {
            let name = name_of(alloc, decls, place)?;
            Ok(Some((name, bit, first, second)))
        }
        Earliest::None => Ok(None),
        Earliest::One(_) => Ok(None),
    }
}

/// Whether the name at the place is one of a memory.
fn is_memory(decls: &Decls, place: usize) -> bool
    requires { place < length decls.now }
    ensures { (d : Decl) → slice_get decls.now place ≡ Some d → result ≡ not (is_none d.words) }
{
    match decls.get(place) {
        None => unreachable!(),
        Some(decl) => decl.words.is_some(),
    }
}

impl Doubled {
    /// Of the drivers' bits, those of vectors.
    fn of_vectors(
        alloc: Global,
        layout: &Layout,
        decls: &Decls,
        drivers: &[Driver],
        numbering: &Numbering,
    ) -> Result<Doubled, Memory>
        requires layout { IsLayoutOf decls.now drivers.now layout.now }
        requires numbering { IsNumberingOf decls.now numbering.now }
        requires driven { All (λ x. IsDriver decls.now x.what) drivers.now }
        ensures { IfOk result (TellsVectors decls.now drivers.now) }
    {
        let shares = bit_shares(alloc, layout, decls, drivers, numbering)?;
        let overlap = overlap_of(alloc, shares.as_slice())?;
        let bits = overlap.two.shared_with(&layout.all)?;
        Ok(Doubled { shares, bits })
    }

    /// The names that drivers assign.
    fn of_names(
        alloc: Global,
        layout: &Layout,
        decls: &Decls,
        drivers: &[Driver],
    ) -> Result<Doubled, Memory>
        requires layout { IsLayoutOf decls.now drivers.now layout.now }
        requires driven { All (λ x. IsDriver decls.now x.what) drivers.now }
        ensures { IfOk result (TellsNames decls.now drivers.now) }
    {
        let shares = name_shares(alloc, layout, decls, drivers)?;
        let overlap = overlap_of(alloc, shares.as_slice())?;
        let Overlap { some, two } = overlap;
        drop(some);
        Ok(Doubled { shares, bits: two })
    }

    /// The lowest bit that two drivers have, of the name at a place, whose bits stand under the number.
    fn lowest(
        &self,
        alloc: Global,
        decls: &Decls,
        place: usize,
        number: u64,
    ) -> Result<Option<(Text, u32, Pos, Pos)>, Memory>
        requires { place < length decls.now }
        ensures { IfOk result (λ found. (drivers : List Driver) (d : Decl) → slice_get decls.now place ≡ Some d
            → Tells decls.now drivers self.now.shares.items self.now.bits number d
            → found ≡ doubled_of decls.now drivers d) }
    {
        let Some(bit) = lowest_bit(&self.bits, number) else {
            return Ok(None);
        };
        let earliest = earliest_of(self.shares.as_slice(), number, bit);
        Ok(named_bit(alloc, decls, place, bit, earliest)?)
    }
}

/// The lowest bit that two drivers have, of the name at a place.
fn doubled_at(
    alloc: Global,
    layout: &Layout,
    decls: &Decls,
    vectors: &Doubled,
    names: &Doubled,
    place: usize,
) -> Result<Option<(Text, u32, Pos, Pos)>, Memory>
    requires groups { AreGroupsOf decls.now layout.now.groups }
    requires within { place < length decls.now }
    ensures { IfOk result (λ found. (drivers : List Driver) (d : Decl) → TellsVectors decls.now drivers vectors.now
        → TellsNames decls.now drivers names.now → slice_get decls.now place ≡ Some d
        → found ≡ doubled_of decls.now drivers d) }
{
    if is_memory(decls, place) {
        return Ok(names.lowest(alloc, decls, place, place as u64)?);
    }
    let span = span_of(&layout.groups, place);
    Ok(vectors.lowest(alloc, decls, place, span.first)?)
}

/// The first name of which a bit has two drivers, with the lowest such bit and the places of its first two drivers. A
/// memory counts as its bit 0, and a target that has a bit twice counts twice. Time is about linear in the drivers.
pub fn two_drivers(
    alloc: Global,
    layout: &Layout,
    decls: &Decls,
    drivers: &[Driver],
    numbering: &Numbering,
) -> Result<Option<(Text, u32, Pos, Pos)>, Memory>
    requires layout { IsLayoutOf decls.now drivers.now layout.now }
    requires numbering { IsNumberingOf decls.now numbering.now }
    requires driven { All (λ x. IsDriver decls.now x.what) drivers.now }
    ensures { IfOk result (λ found. found ≡ spec.two_drivers decls.now drivers.now) }
{
    let vectors = Doubled::of_vectors(alloc, layout, decls, drivers, numbering)?;
    let names = Doubled::of_names(alloc, layout, decls, drivers)?;
    for place in 0..decls.len() {
        let found = doubled_at(alloc, layout, decls, &vectors, &names, place)?;
        if found.is_some() {
            return Ok(found);
        }
    }
    Ok(None)
}
