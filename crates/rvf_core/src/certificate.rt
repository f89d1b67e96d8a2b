//! The check of a certificate: a clause file, and a proof of steps.

ghost use Rattle.std.specs.Prelude.{◌≡◌, IfOk, codes, decimal};
ghost use Rattle.std.specs.Fmt.{signed_decimal};
ghost use Rattle.rvf_core.specs.Certificate.{line_in_cnf, cnf_line, line_in_lrat, lrat_line, step_id, step_hint};
ghost use Rattle.rvf_core.specs.Certificate.{step_line, refuted_line, two_values, three_values, judgement};
ghost use Rattle.rvf_core.specs.Certificate.{proof_report, outcome};
ghost use Rattle.rvf_core.specs.Certifies.{IsProof, IsProved, IsSound};
ghost use Rattle.lrat_check.specs.Steps.{AreSteps, judged};
ghost use Rattle.lrat_check.specs.Texts.{steps_of};

use crate::report::Report;
use cnf_form::Formula;
use cnf_text::{DimacsFault, read_dimacs};
use fv_text::{Memory, Text};
use itoa::Buffer;
use lrat_check::{LratFault, Step, StepFault, read_lrat, verify};
use rvf_report::{Status, put_end, put_word};
use std::alloc::Global;

/// A word, a refusal's number, and a value.
pub(crate) fn line_of_two(
    alloc: Global,
    front: &[u8],
    number: u8,
    value: u32,
) -> Result<Text, Memory>
    ensures { IfOk result (λ line. line ≡ two_values front.now number (decimal value)) }
{
    let mut buffer = Buffer::new();
    let mut line = Vec::new(alloc);
    put_word(&mut line, front)?;
    put_word(&mut line, buffer.format(number).as_bytes())?;
    put_end(&mut line, buffer.format(value).as_bytes())?;
    Ok(Text::from_vec(line))
}

fn line_of_three(alloc: Global, number: u8, id: u64, hint: i128) -> Result<Text, Memory>
    ensures { IfOk result (λ line. line
        ≡ three_values (codes "refused step") number id (signed_decimal hint)) }
{
    let mut buffer = Buffer::new();
    let mut line = Vec::new(alloc);
    put_word(&mut line, b"refused step")?;
    put_word(&mut line, buffer.format(number).as_bytes())?;
    put_word(&mut line, buffer.format(id).as_bytes())?;
    put_end(&mut line, buffer.format(hint).as_bytes())?;
    Ok(Text::from_vec(line))
}

fn line_of_id(alloc: Global, id: u64) -> Result<Text, Memory>
    ensures { IfOk result (λ line. line ≡ refuted_line id) }
{
    let mut buffer = Buffer::new();
    let mut line = Vec::new(alloc);
    put_word(&mut line, b"refuted")?;
    put_end(&mut line, buffer.format(id).as_bytes())?;
    Ok(Text::from_vec(line))
}

/// The line of the clause file, 0 where there is none.
fn line_in_cnf(fault: DimacsFault) -> u32
    ensures { result ≡ line_in_cnf fault }
{
    match fault {
        DimacsFault::Header { line } | DimacsFault::Literal { line } | DimacsFault::Open { line } =>
            line,
        DimacsFault::Count { .. } | DimacsFault::Memory => 0,
    }
}

fn cnf_line(alloc: Global, fault: DimacsFault) -> Result<Text, Memory>
    ensures { IfOk result (λ line. line ≡ cnf_line fault) }
{
    line_of_two(alloc, b"refused cnf", fault.number(), line_in_cnf(fault))
}

/// The line of the proof, 0 where there is none.
fn line_in_lrat(fault: LratFault) -> u32
    ensures { result ≡ line_in_lrat fault }
{
    match fault {
        LratFault::Literal { line } | LratFault::Open { line } => line,
        LratFault::Memory => 0,
    }
}

fn lrat_line(alloc: Global, fault: LratFault) -> Result<Text, Memory>
    ensures { IfOk result (λ line. line ≡ lrat_line fault) }
{
    line_of_two(alloc, b"refused lrat", fault.number(), line_in_lrat(fault))
}

/// The id of the refused step, 0 where there is none.
fn step_id(fault: StepFault) -> u64
    ensures { result ≡ step_id fault }
{
    match fault {
        StepFault::NoClause { id, .. }
        | StepFault::NotUnit { id, .. }
        | StepFault::NoConflict { id }
        | StepFault::IdOrder { id }
        | StepFault::Rat { id } => id,
        StepFault::NoEmpty | StepFault::Memory => 0,
    }
}

/// The hint that the step is refused for, 0 where there is none.
fn step_hint(fault: StepFault) -> i128
    ensures { result ≡ step_hint fault }
{
    match fault {
        StepFault::NoClause { hint, .. } | StepFault::NotUnit { hint, .. } => hint,
        _ => 0,
    }
}

fn step_line(alloc: Global, fault: StepFault) -> Result<Text, Memory>
    ensures { IfOk result (λ line. line ≡ step_line fault) }
{
    line_of_three(alloc, fault.number(), step_id(fault), step_hint(fault))
}

/// What the steps come to over the clauses of a formula.
fn check(alloc: Global, formula: &Formula, steps: &[Step]) -> Result<Report, Memory>
    requires { AreSteps steps.now }
    ensures found { IfOk result (λ report. report ≡ judgement (judged formula.now.clauses steps.now)) }
    ensures proved { IfOk result (λ report. IsSound report.status formula.now.clauses steps.now report.deliveries) }
{
    match verify(alloc, formula, steps) {
        Ok(refuted) => {
            let line = line_of_id(alloc, refuted.id)?;
            Report::of_line(alloc, Status::Passed, line)
        }
        Err(StepFault::Memory) => Err(Memory),
        Err(fault) => {
            let line = step_line(alloc, fault)?;
            Report::of_line(alloc, Status::Refused, line)
        }
    }
}

/// What the proof comes to over the clauses of a formula.
fn prove(alloc: Global, formula: &Formula, proof: &[u8]) -> Result<Report, Memory>
    ensures found { IfOk result (λ report. report ≡ proof_report formula.now.clauses (steps_of proof.now)) }
    ensures proved { IfOk result (λ report. IsProof report.status formula.now.clauses proof.now report.deliveries) }
{
    match read_lrat(alloc, proof) {
        Ok(steps) => check(alloc, formula, steps.as_slice()),
        Err(LratFault::Memory) => Err(Memory),
        Err(fault) => {
            let line = lrat_line(alloc, fault)?;
            Report::of_line(alloc, Status::Refused, line)
        }
    }
}

/// What a certificate comes to: the first refusal, or that the steps refute.
pub(crate) fn certify(alloc: Global, cnf: &[u8], proof: &[u8]) -> Result<Report, Memory>
    ensures found { IfOk result (λ report. report ≡ outcome cnf.now proof.now) }
    ensures proved { IfOk result (λ report. IsProved report.status cnf.now proof.now report.deliveries) }
{
    match read_dimacs(alloc, cnf) {
        Ok(formula) => prove(alloc, &formula, proof),
        Err(DimacsFault::Memory) => Err(Memory),
        Err(fault) => {
            let line = cnf_line(alloc, fault)?;
            Report::of_line(alloc, Status::Refused, line)
        }
    }
}
