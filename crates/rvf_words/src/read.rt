//! Words read as what they ask for.
ghost use Rattle.std.specs.Prelude.{◌≡◌, ◌<◌, None, IfOk, map, string_bytes, codes, option_and_then, option_map};
ghost use Rattle.clap.specs.Words.{found_of, kind_of, subcommand_rows_of};
ghost use Rattle.clap.specs.Walk.{first_of, rows_of};
ghost use Rattle.rvf_words.specs.Line as line;

use crate::command::program;
use crate::line::{Line, Options};
use clap::error::ErrorKind;
use clap::{ArgMatches, Error};
use fv_lines::number_up_to;
use fv_text::{Memory, Text};
use std::alloc::Global;

/// The most clauses that a check may be allowed to derive.
const MOST_CLAUSES: u64 = 1_000_000_000;

/// The most checks that may be judged beside each other.
const MOST_JOBS: u64 = 64;

/// The most variables that a check's clauses may be split by.
const MOST_CUBES: u64 = 6;

/// The most steps of an induction.
const MOST_STEPS: u64 = 100;

/// The fewest and the most words of the design of `bench`.
const FEWEST_WORDS: u64 = 2;

const MOST_WORDS: u64 = 32;

/// An argument's value, where it has one.
fn value_of<'a>(matches: &ArgMatches<'a>, id: &str) -> Option<&'a str>
    ensures { option_map (λ s. s.now) result ≡ first_of id.now (rows_of (found_of matches.now)) }
{
    matches.get_str(id)
}

/// A copy of a value, where there is one.
fn copied(alloc: Global, value: Option<&str>) -> Result<Option<Text>, Memory>
    ensures { IfOk result (λ text. text ≡ option_map (λ s. s.now) value.entry) }
{
    match value {
        Some(value) => {
            let text = Text::from_bytes(alloc, value.as_bytes())?;
            Ok(Some(text))
        }
        None => Ok(None),
    }
}

/// A copy of an argument's value, where it has one.
fn text_of(alloc: Global, matches: &ArgMatches<'_>, id: &str) -> Result<Option<Text>, Memory>
    ensures { IfOk result (λ text. text ≡ first_of id.now (rows_of (found_of matches.now))) }
{
    let found = copied(alloc, value_of(matches, id))?;
    Ok(found)
}

/// The number of one to ten digits, where it is from the least to the most.
fn count_of(digits: &str, least: u64, most: u64) -> Option<u64>
    requires { most < 1000000000000000000 }
    ensures { result ≡ line.count_of least most digits.now }
{
    let bytes = digits.as_bytes();
    if bytes.len() > 10 {
        return None;
    }
    let number = number_up_to(bytes, most)?;
    if number >= least { Some(number) } else { None }
}

/// The number in the range of budgets.
fn budget_of(digits: &str) -> Option<u64>
    ensures { result ≡ line.budget_of digits.now }
{
    count_of(digits, 1, MOST_CLAUSES)
}

/// The number in the range of jobs.
fn jobs_of(digits: &str) -> Option<u32>
    ensures { result ≡ line.jobs_of digits.now }
{
    match count_of(digits, 1, MOST_JOBS) {
        Some(jobs) => Some(jobs as u32),
        None => None,
    }
}

/// The number in the range of split variables.
fn cubes_of(digits: &str) -> Option<u32>
    ensures { result ≡ line.cubes_of digits.now }
{
    match count_of(digits, 0, MOST_CUBES) {
        Some(cubes) => Some(cubes as u32),
        None => None,
    }
}

/// The number in the range of steps.
fn steps_of(digits: &str) -> Option<u32>
    ensures { result ≡ line.steps_of digits.now }
{
    match count_of(digits, 1, MOST_STEPS) {
        Some(steps) => Some(steps as u32),
        None => None,
    }
}

/// The number in the range of words of the design of `bench`.
fn size_of(digits: &str) -> Option<u32>
    ensures { result ≡ line.size_of digits.now }
{
    match count_of(digits, FEWEST_WORDS, MOST_WORDS) {
        Some(size) => Some(size as u32),
        None => None,
    }
}

/// The operands and options of a subcommand that judges what a configuration asks for.
fn options_of(alloc: Global, matches: &ArgMatches<'_>) -> Result<Option<Options>, Memory>
    ensures { IfOk result (λ made. made ≡ line.options_in (rows_of (found_of matches.now))) }
{
    let Some(cfg) = text_of(alloc, matches, "cfg")? else {
        return Ok(None)
    };
    let Some(outdir) = text_of(alloc, matches, "outdir")? else {
        return Ok(None)
    };
    let Some(core) = text_of(alloc, matches, "core")? else {
        return Ok(None)
    };
    let Some(basedir) = text_of(alloc, matches, "basedir")? else {
        return Ok(None)
    };
    let Some(digits) = value_of(matches, "budget") else {
        return Ok(None)
    };
    let Some(budget) = budget_of(digits) else {
        return Ok(None)
    };
    let Some(digits) = value_of(matches, "jobs") else {
        return Ok(None)
    };
    let Some(jobs) = jobs_of(digits) else {
        return Ok(None)
    };
    Ok(Some(Options {
        cfg,
        outdir,
        core,
        basedir,
        budget,
        jobs,
    }))
}

fn run_line(alloc: Global, matches: &ArgMatches<'_>) -> Result<Option<Line>, Memory>
    ensures { IfOk result (λ made. made ≡ line.run_line (rows_of (found_of matches.now))) }
{
    let Some(options) = options_of(alloc, matches)? else {
        return Ok(None)
    };
    let Some(digits) = value_of(matches, "cubes") else {
        return Ok(None)
    };
    let Some(cubes) = cubes_of(digits) else {
        return Ok(None)
    };
    Ok(Some(Line::Run {
        cfg: options.cfg,
        outdir: options.outdir,
        core: options.core,
        basedir: options.basedir,
        budget: options.budget,
        jobs: options.jobs,
        cubes,
    }))
}

fn list_line(alloc: Global, matches: &ArgMatches<'_>) -> Result<Option<Line>, Memory>
    ensures { IfOk result (λ made. made ≡ line.list_line (rows_of (found_of matches.now))) }
{
    let Some(cfg) = text_of(alloc, matches, "cfg")? else {
        return Ok(None)
    };
    Ok(Some(Line::List { cfg }))
}

fn lrat_line(alloc: Global, matches: &ArgMatches<'_>) -> Result<Option<Line>, Memory>
    ensures { IfOk result (λ made. made ≡ line.lrat_line (rows_of (found_of matches.now))) }
{
    let Some(cnf) = text_of(alloc, matches, "cnf")? else {
        return Ok(None)
    };
    let Some(proof) = text_of(alloc, matches, "proof")? else {
        return Ok(None)
    };
    Ok(Some(Line::Lrat { cnf, proof }))
}

fn bench_line(matches: &ArgMatches<'_>) -> Option<Line>
    ensures { result ≡ line.bench_line (rows_of (found_of matches.now)) }
{
    let size = size_of(value_of(matches, "size")?)?;
    Some(Line::Bench { size })
}

fn cover_line(alloc: Global, matches: &ArgMatches<'_>) -> Result<Option<Line>, Memory>
    ensures { IfOk result (λ made. made ≡ line.cover_line (rows_of (found_of matches.now))) }
{
    Ok(options_of(alloc, matches)?.map(Line::Cover))
}

fn zb_line(alloc: Global, matches: &ArgMatches<'_>) -> Result<Option<Line>, Memory>
    ensures { IfOk result (λ made. made ≡ line.zb_line (rows_of (found_of matches.now))) }
{
    Ok(options_of(alloc, matches)?.map(Line::Zb))
}

fn toaig_line(alloc: Global, matches: &ArgMatches<'_>) -> Result<Option<Line>, Memory>
    ensures { IfOk result (λ made. made ≡ line.toaig_line (rows_of (found_of matches.now))) }
{
    let Some(cfg) = text_of(alloc, matches, "cfg")? else {
        return Ok(None)
    };
    let Some(check) = text_of(alloc, matches, "check")? else {
        return Ok(None)
    };
    let Some(file) = text_of(alloc, matches, "file")? else {
        return Ok(None)
    };
    let Some(core) = text_of(alloc, matches, "core")? else {
        return Ok(None)
    };
    let Some(basedir) = text_of(alloc, matches, "basedir")? else {
        return Ok(None)
    };
    Ok(Some(Line::Toaig {
        cfg,
        check,
        file,
        core,
        basedir,
    }))
}

fn induct_line(alloc: Global, matches: &ArgMatches<'_>) -> Result<Option<Line>, Memory>
    ensures { IfOk result (λ made. made ≡ line.induct_line (rows_of (found_of matches.now))) }
{
    let Some(options) = options_of(alloc, matches)? else {
        return Ok(None)
    };
    let Some(digits) = value_of(matches, "steps") else {
        return Ok(None)
    };
    let Some(steps) = steps_of(digits) else {
        return Ok(None)
    };
    Ok(Some(Line::Induct { options, steps }))
}

fn fromaig_line(alloc: Global, matches: &ArgMatches<'_>) -> Result<Option<Line>, Memory>
    ensures { IfOk result (λ made. made ≡ line.fromaig_line (rows_of (found_of matches.now))) }
{
    let Some(aag) = text_of(alloc, matches, "aag")? else {
        return Ok(None)
    };
    let Some(cnf) = text_of(alloc, matches, "cnf")? else {
        return Ok(None)
    };
    Ok(Some(Line::Fromaig { aag, cnf }))
}

fn asked(alloc: Global, matches: &ArgMatches<'_>) -> Result<Option<Line>, Memory>
    ensures { IfOk result (λ made. made
        ≡ option_and_then (λ used. line.asked used.0 used.1) (subcommand_rows_of matches.now)) }
{
    match matches.subcommand() {
        Some((name, found)) if name == "run" => run_line(alloc, found),
        Some((name, found)) if name == "list" => list_line(alloc, found),
        Some((name, found)) if name == "lrat" => lrat_line(alloc, found),
        Some((name, found)) if name == "bench" => Ok(bench_line(found)),
        Some((name, found)) if name == "cover" => cover_line(alloc, found),
        Some((name, found)) if name == "zb" => zb_line(alloc, found),
        Some((name, found)) if name == "induct" => induct_line(alloc, found),
        Some((name, found)) if name == "toaig" => toaig_line(alloc, found),
        Some((name, found)) if name == "fromaig" => fromaig_line(alloc, found),
        _ => Ok(None),
    }
}

/// What comes of an error of `clap`: want of memory stays, and any other cause means that the words ask for nothing.
fn refused(fault: &Error) -> Result<Option<Line>, Memory>
    ensures { IfOk result (λ made. (made ≡ None) × (kind_of fault.now ≡ ErrorKind.OutOfMemory → ⊥)) }
{
    if fault.kind() == ErrorKind::OutOfMemory {
        Err(Memory)
    } else {
        Ok(None)
    }
}

/// The words behind the program's name, read; None exactly where they are refused.
pub fn read_words(alloc: Global, words: &[String]) -> Result<Option<Line>, Memory>
    ensures { IfOk result (λ made. made ≡ line.line_of (map string_bytes words.now)) }
{
    match program(alloc)?.try_get_matches_from(words) {
        Ok(matches) => asked(alloc, &matches),
        Err(fault) => refused(&fault),
    }
}
