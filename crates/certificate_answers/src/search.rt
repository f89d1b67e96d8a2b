//! Searches over clause files.

use crate::certificate::put_proof;
use crate::escape;
use cnf_form::{Formula, clause_at};
use cnf_text::read_dimacs;
use fv_text::{List, Memory};
use lrat_check::{Step, lrat, verify};
use sat_quick::{Guess, guess_answer};
use sat_search::{Found, solve};
use std::alloc::Global;

/// How the search over `BUDGET|CLAUSES` ends.
pub(crate) fn put_found(alloc: Global, out: &mut String, text: &[u8]) -> Result<(), Memory> {
    let (budget, cnf) = escape::parted(text);
    put_answer(alloc, out, number(budget), cnf)
}

/// What is guessed over `BUDGET|CLAUSES`: `model`, or what the checker says of the steps as a text; else `none`.
pub(crate) fn put_guessed(alloc: Global, out: &mut String, text: &[u8]) -> Result<(), Memory> {
    let (budget, cnf) = escape::parted(text);
    match read_dimacs(alloc, cnf) {
        Ok(formula) => put_guess(alloc, out, number(budget), &formula),
        Err(_) => put(out, "no clauses"),
    }
}

fn put_guess(
    alloc: Global,
    out: &mut String,
    budget: u64,
    formula: &Formula,
) -> Result<(), Memory> {
    match guess_answer(alloc, formula, budget) {
        None => put(out, "none"),
        Some(Guess::Model(values)) => put_checked(out, all_true(&values, formula), "model"),
        Some(Guess::Steps(steps)) => {
            let proof = lrat(alloc, steps.as_slice())?;
            put_proof(alloc, out, formula, &proof)
        }
    }
}

/// The number of digits.
fn number(digits: &[u8]) -> u64 {
    str::from_utf8(digits)
        .ok()
        .and_then(|digits| digits.parse().ok())
        .unwrap_or(0)
}

/// `model`, `refuted`, or `spent` with the number of steps; with `wrong` before it where the values or the steps don't
/// hold.
fn put_answer(alloc: Global, out: &mut String, budget: u64, cnf: &[u8]) -> Result<(), Memory> {
    match read_dimacs(alloc, cnf) {
        Ok(formula) => put_end(alloc, out, budget, &formula),
        Err(_) => put(out, "no clauses"),
    }
}

fn put_end(alloc: Global, out: &mut String, budget: u64, formula: &Formula) -> Result<(), Memory> {
    if budget == 0 {
        return put(out, "no budget");
    }
    match solve(alloc, formula, budget)? {
        Found::Model(values) => put_checked(out, all_true(&values, formula), "model"),
        Found::Refuted(steps) => put_checked(
            out,
            verify(alloc, formula, steps.as_slice()).is_ok(),
            "refuted",
        ),
        Found::Spent(steps) => put_spent(out, steps.len()),
    }
}

fn put(out: &mut String, text: &str) -> Result<(), Memory> {
    out.push_str(text)?;
    Ok(())
}

fn put_checked(out: &mut String, holds: bool, word: &str) -> Result<(), Memory> {
    let mark = if holds { "" } else { "wrong " };
    write!(out, "{mark}{word}")?;
    Ok(())
}

fn put_spent(out: &mut String, steps: usize) -> Result<(), Memory> {
    write!(out, "spent {steps}")?;
    Ok(())
}

fn all_true(values: &List<bool>, formula: &Formula) -> bool {
    values.len() as u64 == formula.vars()
        && (0..formula.len()).all(|index| clause_at(formula, index)
            .iter()
            .any(|lit| is_true(values, *lit)))
}

fn is_true(values: &List<bool>, lit: i64) -> bool {
    let index = lit.unsigned_abs().saturating_sub(1) as usize;
    match values.get(index) {
        Some(value) => *value == (lit > 0),
        None => false,
    }
}

/// The next number of a linear congruential generator, below 2^31.
fn next(seed: u64) -> u64 {
    (seed.wrapping_mul(1103515245).wrapping_add(12345)) % 2147483648
}

/// How the search ends over random clauses of three literals, 43 for each ten variables, from `SEED|VARIABLES`.
pub(crate) fn put_random(alloc: Global, out: &mut String, text: &[u8]) -> Result<(), Memory> {
    let mut cnf = String::new(alloc);
    put_clauses(&mut cnf, text)?;
    put_answer(alloc, out, 200000, cnf.as_bytes())
}

fn put_clauses(cnf: &mut String, text: &[u8]) -> Result<(), Memory> {
    let (seed, vars) = escape::parted(text);
    let vars = number(vars).min(1000).max(1);
    let count = vars * 43 / 10;
    write!(cnf, "p cnf {vars} {count}\n")?;
    let mut state = next(number(seed));
    for _ in 0..count {
        for _ in 0..3u8 {
            let var = next(state);
            state = next(var);
            put_literal(cnf, state / 65536 % 2 == 0, var / 256 % vars + 1)?;
        }
        put(cnf, "0\n")?;
    }
    Ok(())
}

fn put_literal(cnf: &mut String, is_plain: bool, var: u64) -> Result<(), Memory> {
    let sign = if is_plain { "" } else { "-" };
    write!(cnf, "{sign}{var} ")?;
    Ok(())
}
