//! What is delivered of a question.

ghost use Rattle.std.specs.Prelude.{◌≡◌, IfOk};
ghost use Rattle.rvf_checks.specs.Deliveries as deliveries;
ghost use Rattle.rvf_report.specs.declared.delivery.Delivery.TheVariants.{File};

use crate::lines::{named_line, spent_line};
use crate::wording::Wording;
use fv_text::{List, Memory, Text};
use rvf_judge::{CertificateTexts, Judged};
use rvf_report::Delivery;
use std::alloc::Global;

/// A question's file in a folder.
fn path(alloc: Global, folder: &[u8], name: &[u8], ending: &[u8]) -> Result<Text, Memory>
    ensures { IfOk result (λ made. made ≡ deliveries.path folder.now name.now ending.now) }
{
    let mut made = Vec::from_slice(alloc, folder)?;
    made.push(b'/')?;
    made.extend_from_slice(name)?;
    made.extend_from_slice(ending)?;
    Ok(Text::from_vec(made))
}

/// A question's file in a folder, with what it holds.
pub(crate) fn file_of(
    alloc: Global,
    folder: &[u8],
    name: &[u8],
    ending: &[u8],
    bytes: Text,
) -> Result<Delivery, Memory>
    ensures { IfOk result (λ made. made ≡ File (deliveries.path folder.now name.now ending.now) bytes) }
{
    let name = path(alloc, folder, name, ending)?;
    Ok(Delivery::File { name, bytes })
}

/// The two files of a certificate.
pub(crate) fn files_of(
    alloc: Global,
    folder: &[u8],
    name: &[u8],
    texts: CertificateTexts,
) -> Result<List<Delivery>, Memory>
    ensures { IfOk result (λ made. made ≡ deliveries.files_of folder.now name.now texts) }
{
    let CertificateTexts { clauses, steps } = texts;
    let first = file_of(alloc, folder, name, b".cnf", clauses)?;
    let second = file_of(alloc, folder, name, b".lrat", steps)?;
    let mut made = List::new(alloc);
    made.push(first)?;
    made.push(second)?;
    Ok(made)
}

/// The two files of a certificate, and then the line.
pub(crate) fn certified(
    alloc: Global,
    folder: &[u8],
    name: &[u8],
    texts: CertificateTexts,
    line: Text,
) -> Result<List<Delivery>, Memory>
    ensures { IfOk result (λ made. made ≡ deliveries.certified folder.now name.now texts line) }
{
    let mut made = files_of(alloc, folder, name, texts)?;
    made.push(Delivery::Line(line))?;
    Ok(made)
}

/// The file of a trace, and then the line.
pub(crate) fn dumped(
    alloc: Global,
    folder: &[u8],
    name: &[u8],
    dump: Text,
    line: Text,
) -> Result<List<Delivery>, Memory>
    ensures { IfOk result (λ made. made ≡ deliveries.dumped folder.now name.now dump line) }
{
    let file = file_of(alloc, folder, name, b".vcd", dump)?;
    let mut made = List::new(alloc);
    made.push(file)?;
    made.push(Delivery::Line(line))?;
    Ok(made)
}

/// What is delivered of a question with this name: its files in a folder, and its line, with the words for it where no
/// run gives what is sought, and where one does.
fn deliveries_of(
    alloc: Global,
    never: &[u8],
    found: &[u8],
    folder: &[u8],
    name: &[u8],
    budget: u64,
    judged: Judged,
) -> Result<List<Delivery>, Memory>
    ensures { IfOk result (λ made. made
        ≡ deliveries.deliveries_of never.now found.now folder.now name.now budget judged) }
{
    match judged {
        Judged::Never(texts) => {
            let line = named_line(alloc, never, name)?;
            certified(alloc, folder, name, texts, line)
        }
        Judged::Found(dump) => {
            let line = named_line(alloc, found, name)?;
            dumped(alloc, folder, name, dump, line)
        }
        Judged::Spent(texts) => {
            let line = spent_line(alloc, name, budget)?;
            certified(alloc, folder, name, texts, line)
        }
    }
}

/// What `bench` delivers of a check with this name: its files in a folder, where its budget is used up.
fn files_if_spent(
    alloc: Global,
    folder: &[u8],
    name: &[u8],
    judged: Judged,
) -> Result<List<Delivery>, Memory>
    ensures { IfOk result (λ made. made ≡ deliveries.files_if_spent folder.now name.now judged) }
{
    match judged {
        Judged::Spent(texts) => files_of(alloc, folder, name, texts),
        Judged::Never(_) | Judged::Found(_) => Ok(List::new(alloc)),
    }
}

/// What is delivered of a question with this name, in these words.
pub(crate) fn deliveries_in(
    alloc: Global,
    wording: Wording,
    folder: &[u8],
    name: &[u8],
    budget: u64,
    judged: Judged,
) -> Result<List<Delivery>, Memory>
    ensures { IfOk result (λ made. made ≡ deliveries.deliveries_in wording folder.now name.now budget judged) }
{
    match wording {
        Wording::Run | Wording::Zb => {
            deliveries_of(alloc, b"pass ", b"fail ", folder, name, budget, judged)
        }
        Wording::Bench(_) => files_if_spent(alloc, folder, name, judged),
        Wording::Cover => deliveries_of(
            alloc,
            b"unreached ",
            b"reached ",
            folder,
            name,
            budget,
            judged,
        ),
    }
}
