//! Clause files and proofs.

use crate::escape;
use cnf_form::{Formula, are_literals};
use cnf_text::{dimacs, read_dimacs};
use fv_text::{Memory, Text};
use lrat_check::{Refuted, Step, StepFault, Store, lrat, read_lrat, verify};
use std::alloc::Global;
use std::fmt::Display;

/// What `CLAUSES|PROOF` comes to: `refuted` and the id of the empty clause, or which part is refused with which
/// number and message.
pub(crate) fn put_judged(alloc: Global, out: &mut String, text: &[u8]) -> Result<(), Memory> {
    let (cnf, proof) = escape::parted(text);
    put_answer(alloc, out, cnf, proof)
}

fn put_answer(alloc: Global, out: &mut String, cnf: &[u8], proof: &[u8]) -> Result<(), Memory> {
    match read_dimacs(alloc, cnf) {
        Ok(formula) => put_proof(alloc, out, &formula, proof),
        Err(fault) => put_fault(out, "cnf", fault.number(), &fault),
    }
}

/// What the checker says of a proof: `refuted` and the id of the empty clause, or what is refused.
pub(crate) fn put_proof(
    alloc: Global,
    out: &mut String,
    formula: &Formula,
    proof: &[u8],
) -> Result<(), Memory> {
    match read_lrat(alloc, proof) {
        Ok(steps) => put_verdict(out, verify(alloc, formula, steps.as_slice())),
        Err(fault) => put_fault(out, "lrat", fault.number(), &fault),
    }
}

fn put_verdict(out: &mut String, verdict: Result<Refuted, StepFault>) -> Result<(), Memory> {
    match verdict {
        Ok(refuted) => write!(out, "refuted {}", refuted.id)?,
        Err(fault) => put_fault(out, "step", fault.number(), &fault)?,
    }
    Ok(())
}

fn put_fault(out: &mut String, part: &str, number: u8, fault: &impl Display) -> Result<(), Memory> {
    write!(out, "{part} {number}: {fault}")?;
    Ok(())
}

/// How many proofs refute, of those that are cut off before one of the proof's bytes.
pub(crate) fn put_cut(alloc: Global, out: &mut String, text: &[u8]) -> Result<(), Memory> {
    let (cnf, proof) = escape::parted(text);
    let mut count = 0u64;
    for end in 0..proof.len() {
        if is_refuted(alloc, cnf, &proof[..end])? {
            count = count.saturating_add(1);
        }
    }
    write!(out, "{count}")?;
    Ok(())
}

fn is_refuted(alloc: Global, cnf: &[u8], proof: &[u8]) -> Result<bool, Memory> {
    let mut answer = String::new(alloc);
    put_answer(alloc, &mut answer, cnf, proof)?;
    Ok(answer.starts_with("refuted"))
}

/// Each of 100,000 ids is added and deleted before the refutation.
pub(crate) fn put_many_ids(alloc: Global, out: &mut String) -> Result<(), Memory> {
    let mut proof = String::new(alloc);
    for id in 5..100005u64 {
        write!(proof, "{id} 1 0 1 2 0\n{id} d {id} 0\n")?;
    }
    proof.push_str("100005 1 0 1 2 0\n100006 0 100005 3 4 0\n")?;
    put_answer(
        alloc,
        out,
        b"p cnf 2 4\n1 2 0\n1 -2 0\n-1 2 0\n-1 -2 0\n",
        proof.as_bytes(),
    )
}

/// `NOTE|CLAUSES|PROOF` written again; nothing where one of them is refused.
pub(crate) fn put_again(alloc: Global, out: &mut String, text: &[u8]) -> Result<(), Memory> {
    let (note, rest) = escape::parted(text);
    let (cnf, proof) = escape::parted(rest);
    match read_dimacs(alloc, cnf) {
        Ok(formula) => put_proof_again(alloc, out, note, &formula, proof),
        Err(_) => Ok(()),
    }
}

fn put_proof_again(
    alloc: Global,
    out: &mut String,
    note: &[u8],
    formula: &Formula,
    proof: &[u8],
) -> Result<(), Memory> {
    match read_lrat(alloc, proof) {
        Ok(steps) => put_both(alloc, out, note, formula, steps.as_slice()),
        Err(_) => Ok(()),
    }
}

fn put_both(
    alloc: Global,
    out: &mut String,
    note: &[u8],
    formula: &Formula,
    steps: &[Step],
) -> Result<(), Memory> {
    put_clauses(alloc, out, note, formula)?;
    out.push('|')?;
    escape::put_escaped(out, lrat(alloc, steps)?.as_slice())
}

fn put_clauses(
    alloc: Global,
    out: &mut String,
    note: &[u8],
    formula: &Formula,
) -> Result<(), Memory> {
    let notes = [Text::from_bytes(alloc, note)?];
    escape::put_escaped(out, dimacs(alloc, formula, &notes)?.as_slice())
}

/// A formula that is made clause by clause: how many variables and clauses it has, and its clauses.
pub(crate) fn put_held(alloc: Global, out: &mut String) -> Result<(), Memory> {
    let formula = made(alloc)?;
    put_formula(out, &formula)
}

/// Of those clauses that have literals of the variables.
fn made(alloc: Global) -> Result<Formula, Memory> {
    let mut formula = Formula::new(alloc, 3);
    let clauses: [&[i64]; 3] = [&[1, -2], &[], &[3]];
    for clause in clauses {
        if are_literals(clause, formula.vars()) {
            formula.push(clause)?;
        }
    }
    Ok(formula)
}

fn put_formula(out: &mut String, formula: &Formula) -> Result<(), Memory> {
    write!(out, "{} {}", formula.vars(), formula.len())?;
    for index in 0..4usize {
        write!(out, " {:?}", formula.clause(index))?;
    }
    Ok(())
}

/// A store of one clause: its codes, before and after two of them change places, and once it is removed.
pub(crate) fn put_stored(alloc: Global, out: &mut String) -> Result<(), Memory> {
    let mut store = Store::new(alloc);
    store.add(7, &[1, -2])?;
    write!(out, "{:?}", store.lits(7))?;
    store.swap(7, 0, 1);
    put_rest(out, &mut store)
}

/// Behind the exchange.
fn put_rest(out: &mut String, store: &mut Store) -> Result<(), Memory> {
    write!(out, " {:?} {:?}", store.lits(7), store.lits(6))?;
    let removed = store.remove(7);
    let again = store.remove(7);
    write!(out, " {removed} {again} {:?}", store.lits(7))?;
    Ok(())
}
