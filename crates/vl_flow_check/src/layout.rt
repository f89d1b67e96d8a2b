ghost use Rattle.std.specs.Prelude.{◌≡◌, ℕ, ◌&&◌, ◌<◌, ◌≤◌, ◌++◌, ◌∷◌, [], IfOk, OnOk, List, length, nat_lt};
ghost use Rattle.vl_flow_cells.specs.Numbered.{Shows};
ghost use Rattle.fv_bit_sets.specs.Cells.{has, is_set};
ghost use Rattle.vl_flow_check.specs.Layouts.{AreBitsAt, AreBitsOf, counts, IsFilled, IsLayoutOf, IsSpan, Marks};
ghost use Rattle.vl_flow_order.specs.CellGroups.{AreGroupsOf};
ghost use Rattle.vl_mean.specs.declared.driver.Driver.{Driver};
ghost use Rattle.vl_flow_spec.specs.Refusals.{has_bit};
ghost use Rattle.vl_flow_spec.specs.Reads.{Bits as BitsOf};
ghost use Rattle.vl_mean.specs.FlatLaw as spec;
ghost use Rattle.vl_size.specs.declared.decl.Decl.{Decl};

use fv_bit_sets::Bits;
use fv_bits::ones;
use fv_text::{List, Memory};
use std::alloc::Global;
use vl_flow_effects::Assigned;
use vl_flow_order::{Footprint, Groups, named, union_of};
use vl_size::{Class, Decl, Decls};

/// Which declared names count.
#[derive(Debug, Clone, Copy, PartialEq, Eq)]
pub enum Names {
    All,
    Nets,
}

impl Names {
    fn counts(self, decl: &Decl) -> bool
        ensures { result ≡ counts self decl.now }
    {
        match self {
            Names::All => true,
            Names::Nets => is_net(decl.class),
        }
    }
}

fn is_net(class: Class) -> bool
    ensures { (d : Decl) → d.class ≡ class → result ≡ spec.is_net d }
{
    match class {
        Class::Net => true,
        _ => false,
    }
}

/// A design's names and drivers as sets of bits.
#[derive(Drop)]
pub struct Layout {
    /// The cells of each name.
    pub groups: Groups,
    /// All bits of all cells.
    pub all: Bits,
    /// What each driver reads and drives.
    pub footprints: List<Footprint>,
    /// The names that each driver assigns.
    pub assigned: List<Assigned>,
}

/// The numbers of a name's cells, from the first up to the one before `past`.
#[derive(Debug, Clone, Copy)]
pub struct Span {
    pub first: u64,
    pub past: u64,
}

/// The cells of the name at a place.
pub fn span_of(groups: &Groups, place: usize) -> Span
    requires { place < length groups.now.ends }
    ensures { (ds : List Decl) → AreGroupsOf ds groups.now → IsSpan ds place result }
{
    let ends = groups.ends.as_slice();
    let past = ends[place];
    if place == 0 {
        return Span { first: 0, past };
    }
    Span {
        first: ends[place - 1],
        past,
    }
}

fn push(parts: &mut Vec<Bits>, part: Bits) -> Result<(), Memory>
    ensures { OnOk result (parts.new.items ≡ parts.old.items ++ part ∷ []) }
{
    if parts.push(part).is_err() {
        return Err(Memory);
    }
    Ok(())
}

/// The bits of a number of the name's width, where the name counts.
fn mask_of(counts: bool, decl: &Decl) -> u128
    requires { decl.now.width ≤ 128 }
    ensures { (bit : ℕ) → is_set result bit ≡ (counts && nat_lt bit decl.now.width) }
{
    if counts {
        return ones(decl.width);
    }
    0
}

/// All bits of the cells, where the name counts.
fn bits_at(alloc: Global, span: Span, counts: bool, decl: &Decl) -> Result<Bits, Memory>
    requires { decl.now.width ≤ 128 }
    ensures { IfOk result (IsFilled span counts decl.now) }
{
    if span.past <= span.first {
        return Ok(Bits::none(alloc));
    }
    let mask = mask_of(counts, decl);
    Ok(Bits::of_cells(alloc, span.first, span.past, mask)?)
}

/// All bits of the name at a place, where it counts.
fn bits_of_name(
    alloc: Global,
    decls: &Decls,
    groups: &Groups,
    names: Names,
    place: usize,
) -> Result<Bits, Memory>
    requires groups { AreGroupsOf decls.now groups.now }
    requires within { place < length decls.now }
    ensures { IfOk result (AreBitsAt decls.now (counts names) place) }
{
    let _count = decls.len();
    let span = span_of(groups, place);
    match decls.get(place) {
        None => unreachable!(),
        Some(decl) => Ok(bits_at(alloc, span, names.counts(decl), decl)?),
    }
}

/// All bits of all declared names that count, in time about linear in the names.
pub fn bits_of_names(
    alloc: Global,
    decls: &Decls,
    groups: &Groups,
    names: Names,
) -> Result<Bits, Memory>
    requires { AreGroupsOf decls.now groups.now }
    ensures { IfOk result (AreBitsOf decls.now (counts names)) }
{
    let mut parts = Vec::new(alloc);
    for place in 0..decls.len() {
        push(
            &mut parts,
            bits_of_name(alloc, decls, groups, names, place)?,
        )?;
    }
    Ok(union_of(alloc, parts.as_slice())?)
}

impl Layout {
    /// The names of which a set has a bit, under the numbers of their places.
    pub(crate) fn names(&self, alloc: Global, bits: &Bits) -> Result<Bits, Memory>
        ensures { IfOk result (λ made. (ds : List Decl) (drivers : List Driver) (K : BitsOf)
            → IsLayoutOf ds drivers self.now → Shows ds (has bits.now) K → Marks ds made (has_bit K)) }
    {
        let inside = bits.shared_with(&self.all)?;
        Ok(named(alloc, &self.groups, &inside)?)
    }
}
