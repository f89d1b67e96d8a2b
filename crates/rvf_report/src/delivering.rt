//! Files and lines, delivered one after the other.

ghost use Rattle.std.specs.Prelude.{◌≡◌, ◌≤◌, List, IfOk};
ghost use Rattle.fv_base.specs.Outside.{UnlessNotPut};
ghost use Rattle.rvf_report.specs.Outcome.{outside, IsDelivered, IsDone, IsQuiet, IsWritten, IsPut, LeavesOne};
ghost use Rattle.rvf_report.specs.Steps.{CountsIn};
ghost use Rattle.rvf_report.specs.declared.delivery.Delivery.{Delivery as SpecDelivery};

use crate::delivery::Delivery;
use fv_base::{FileFault, Files, Out, OutFault};
use fv_text::{List, Memory};
use std::alloc::Global;

/// Delivers all in this order, up to the first that fails.
pub fn deliver<F: Files, O: Out>(
    alloc: Global,
    deliveries: &[Delivery],
    files: &mut F,
    out: &mut O,
) -> Result<(), OutFault>
    ensures delivered { IsDelivered result
        (outside (F.state files.old) (O.state out.old)) (outside (F.state files.new) (O.state out.new))
        deliveries.now }
    // Want of memory left one of them.
    ensures left { LeavesOne result
        (outside (F.state files.old) (O.state out.old)) (outside (F.state files.new) (O.state out.new))
        deliveries.now }
    ensures unheard { (F.state files.new).heard ≡ (F.state files.old).heard }
    ensures misses_kept { (F.state files.new).misses ≡ (F.state files.old).misses }
    ensures faults_grow { (F.state files.old).faults ≤ (F.state files.new).faults }
    ensures out_faults_grow { (O.state out.old).faults ≤ (O.state out.new).faults }
    ensures quiet { UnlessNotPut result
        (IsQuiet (outside (F.state files.old) (O.state out.old)) (outside (F.state files.new) (O.state out.new))) }
{
    for delivery in deliveries {
        if let Err(fault) = deliver_one(alloc, delivery, files, out) {
            return Err(fault);
        }
    }
    Ok(())
}

/// Delivers what was made, where there was memory to make it.
pub(crate) fn deliver_made<F: Files, O: Out>(
    alloc: Global,
    made: Result<List<Delivery>, Memory>,
    files: &mut F,
    out: &mut O,
) -> Result<(), OutFault>
    ensures delivered { (deliveries : List SpecDelivery) → IfOk made (λ list. list ≡ deliveries)
        → IsDelivered result
        (outside (F.state files.old) (O.state out.old)) (outside (F.state files.new) (O.state out.new))
        deliveries }
    ensures counts { CountsIn result
        (outside (F.state files.old) (O.state out.old)) (outside (F.state files.new) (O.state out.new)) }
{
    match made {
        Ok(list) => deliver(alloc, list.as_slice(), files, out),
        Err(_) => Err(OutFault::Memory),
    }
}

fn deliver_one<F: Files, O: Out>(
    alloc: Global,
    delivery: &Delivery,
    files: &mut F,
    out: &mut O,
) -> Result<(), OutFault>
    ensures done { IsDone result
        (outside (F.state files.old) (O.state out.old)) (outside (F.state files.new) (O.state out.new))
        delivery.now }
    ensures counts { CountsIn result
        (outside (F.state files.old) (O.state out.old)) (outside (F.state files.new) (O.state out.new)) }
{
    match delivery {
        Delivery::File { name, bytes } => write(alloc, name.bytes(), bytes.bytes(), files),
        Delivery::Line(line) => put(line.bytes(), out),
    }
}

/// Makes the file hold the bytes.
fn write<F: Files>(alloc: Global, name: &[u8], bytes: &[u8], files: &mut F) -> Result<(), OutFault>
    ensures written { IsWritten result (F.state files.old) (F.state files.new) name.now bytes.now }
    ensures unheard { (F.state files.new).heard ≡ (F.state files.old).heard }
    ensures quiet { UnlessNotPut result ((F.state files.new).faults ≡ (F.state files.old).faults) }
    ensures faults_grow { (F.state files.old).faults ≤ (F.state files.new).faults }
    ensures misses_kept { (F.state files.new).misses ≡ (F.state files.old).misses }
{
    match files.write(alloc, name, bytes) {
        Ok(()) => Ok(()),
        Err(FileFault::Memory) => Err(OutFault::Memory),
        Err(_) => Err(OutFault::Failed),
    }
}

/// Puts the line.
fn put<O: Out>(line: &[u8], out: &mut O) -> Result<(), OutFault>
    ensures put { IsPut result (O.state out.old) (O.state out.new) line.now }
    ensures quiet { UnlessNotPut result ((O.state out.new).faults ≡ (O.state out.old).faults) }
    ensures faults_grow { (O.state out.old).faults ≤ (O.state out.new).faults }
{
    out.put(line)
}
