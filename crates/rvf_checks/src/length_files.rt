//! What is delivered of a check in runs of every length.

ghost use Rattle.std.specs.Prelude.{◌≡◌, ◌++◌, IfOk, codes};
ghost use Rattle.rvf_checks.specs.Lengths as lengths;

use crate::check::{certified, dumped, file_of, files_of};
use crate::length_lines::{open_line, proved_line};
use crate::lines::{named_line, skip_line, spent_line};
use fv_text::{List, Memory};
use rvf_judge::{CertificateTexts, Induction};
use rvf_report::Delivery;
use std::alloc::Global;

/// A name with an ending, which its files have in front of their own.
fn with_ending(alloc: Global, name: &[u8], ending: &[u8]) -> Result<Vec<u8>, Memory>
    ensures { IfOk result (λ made. made.items ≡ name.now ++ ending.now) }
{
    let mut made = Vec::from_slice(alloc, name)?;
    made.extend_from_slice(ending)?;
    Ok(made)
}

/// The files of both halves, and then the line.
fn both_certified(
    alloc: Global,
    folder: &[u8],
    name: &[u8],
    steps: u32,
    base: CertificateTexts,
    step: CertificateTexts,
) -> Result<List<Delivery>, Memory>
    ensures { IfOk result (λ made. made ≡ lengths.both_files folder.now name.now steps base step) }
{
    let line = proved_line(alloc, name, steps)?;
    let base_name = with_ending(alloc, name, b".base")?;
    let step_name = with_ending(alloc, name, b".step")?;
    let CertificateTexts {
        clauses,
        steps: refutation,
    } = step;
    let third = file_of(alloc, folder, step_name.as_slice(), b".cnf", clauses)?;
    let fourth = file_of(alloc, folder, step_name.as_slice(), b".lrat", refutation)?;
    let mut made = files_of(alloc, folder, base_name.as_slice(), base)?;
    made.push(third)?;
    made.push(fourth)?;
    made.push(Delivery::Line(line))?;
    Ok(made)
}

/// What is delivered of a check with this name: its files in a folder, and its line.
pub(crate) fn length_deliveries(
    alloc: Global,
    folder: &[u8],
    name: &[u8],
    steps: u32,
    budget: u64,
    made: Induction,
) -> Result<List<Delivery>, Memory>
    ensures { IfOk result (λ all. all ≡ lengths.length_deliveries folder.now name.now steps budget made) }
{
    match made {
        Induction::Skipped => {
            let line = skip_line(alloc, name)?;
            let mut all = List::new(alloc);
            all.push(Delivery::Line(line))?;
            Ok(all)
        }
        Induction::Fails(dump) => {
            let line = named_line(alloc, b"fail ", name)?;
            dumped(alloc, folder, name, dump, line)
        }
        Induction::Open(dump) => {
            let line = open_line(alloc, name)?;
            let step_name = with_ending(alloc, name, b".step")?;
            dumped(alloc, folder, step_name.as_slice(), dump, line)
        }
        Induction::Proved { base, step } => both_certified(alloc, folder, name, steps, base, step),
        Induction::SpentBase(texts) => {
            let line = spent_line(alloc, name, budget)?;
            let base_name = with_ending(alloc, name, b".base")?;
            certified(alloc, folder, base_name.as_slice(), texts, line)
        }
        Induction::SpentStep(texts) => {
            let line = spent_line(alloc, name, budget)?;
            let step_name = with_ending(alloc, name, b".step")?;
            certified(alloc, folder, step_name.as_slice(), texts, line)
        }
    }
}
