//! Texts of small graphs, as they are worked out by hand from the format, each refusal, and graphs that are large.

use crate::{AagFault, aag, read_aag};
use bb_aig::{Aig, Lit};
use fv_text::{Memory, Text};
use std::alloc::Global;
use std::test::Fail;

/// The text of a graph of so many inputs and gates of these operands, its inputs named `a`, `b` and so on.
fn written(alloc: Global, inputs: u8, gates: &[(Lit, Lit)], root: Lit) -> Result<Vec<u8>, Memory> {
    let mut aig = Aig::new(alloc);
    let mut names = Vec::new(alloc);
    for number in 0..inputs {
        let _lit = aig.input()?;
        names.push(Text::from_bytes(alloc, &[b'a'.saturating_add(number)])?)?;
    }
    for (left, right) in gates {
        add(&mut aig, *left, *right)?;
    }
    Ok(aag(alloc, &aig, root, names.as_slice())?)
}

fn add(aig: &mut Aig, left: Lit, right: Lit) -> Result<(), Memory> {
    let most = 2 * aig.len() as u64;
    if left < most && right < most {
        let _lit = aig.and(left, right)?;
    }
    Ok(())
}

#[test]
fn gates_stand_behind_the_output(rt: HostRuntime) -> Result<(), Fail> {
    let text = written(rt.alloc(), 2, &[(2, 5), (3, 6)], 8)?;
    assert!(rt;
        text.as_slice() == b"aag 4 2 0 1 2\n2\n4\n8\n6 2 5\n8 3 6\ni0 a\ni1 b\n".as_slice()
    );
    Ok(())
}

#[test]
fn an_output_may_be_constant(rt: HostRuntime) -> Result<(), Fail> {
    let alloc = rt.alloc();
    assert!(rt; written(alloc, 0, &[], 0)?.as_slice() == b"aag 0 0 0 1 0\n0\n".as_slice());
    assert!(rt; written(alloc, 1, &[], 1)?.as_slice() == b"aag 1 1 0 1 0\n2\n1\ni0 a\n".as_slice());
    Ok(())
}

/// The refusal of a text, as its number and line; (0, 0) where it is read.
fn refusal(alloc: Global, text: &str) -> (u8, u32) {
    match read_aag(alloc, text.as_bytes()) {
        Ok(_) => (0, 0),
        Err(fault) => (fault.number(), line_of(fault)),
    }
}

fn line_of(fault: AagFault) -> u32 {
    match fault {
        AagFault::Header { line } => line,
        AagFault::Kind { line } => line,
        AagFault::Literal { line } => line,
        AagFault::Twice { line } => line,
        AagFault::Open { line } => line,
        AagFault::Undefined { line } => line,
        AagFault::Loop { line } => line,
        AagFault::Memory => 0,
    }
}

#[test]
fn refusals_are_at_their_lines(rt: HostRuntime) -> Result<(), Fail> {
    let alloc = rt.alloc();
    let cases = [
        ("aag 3 2 0 1 1\n2\n4\n6\n6 2 5\n", 0, 0),
        ("aag 3 2 0 1 1\n2\n4\n6\n6 2 5", 0, 0),
        ("aag 3 2 0 1 1\n2\n4\n6\n6 2 5\ni0 a\nc\n\nx", 0, 0),
        ("aag 3 2 0 1 1 0 0 0 0\n2\n4\n6\n06 002 5\n", 0, 0),
        ("aag 0 0 0 1 0\n0\n", 0, 0),
        ("aag 0 0 0 1 0\n1\n", 0, 0),
        (
            "aag 18446744073709551616 1 0 1 1\n2\n36893488147419103232\n36893488147419103232 2 2\n",
            0,
            0,
        ),
        ("", 1, 1),
        ("\n", 1, 1),
        ("aag\n", 1, 1),
        ("aig 3 2 0 1 1\n2\n4\n6\n6 2 5\n", 1, 1),
        ("aag  3 2 0 1 1\n", 1, 1),
        ("aag 3 2 0 1 1 \n", 1, 1),
        ("aag 3 2 0 1\n", 1, 1),
        ("aag 3 2 0 1 1\r\n", 1, 1),
        ("aag 3 2 0 1 1 0 0 0 0 0\n", 1, 1),
        ("aag 2 2 0 1 1\n", 1, 1),
        ("aag 2 2 1 1 0\n", 1, 1),
        ("aag 000000000000000000003 2 0 1 1\n", 1, 1),
        ("aag 3 1 1 1 1\n", 2, 1),
        ("aag 3 2 0 2 1\n", 2, 1),
        ("aag 3 2 0 0 1\n", 2, 1),
        ("aag 3 2 0 1 1 0 1\n", 2, 1),
        ("aag 3 2 0 1 1\n2\n4\n6\n6 2 9\n", 3, 5),
        ("aag 3 2 0 1 1\n2\n4\n6\n6 2\n", 3, 5),
        ("aag 3 2 0 1 1\n2\n4\n6\n6 2 5 0\n", 3, 5),
        ("aag 3 2 0 1 1\n2\n4\n6\n7 2 5\n", 3, 5),
        ("aag 3 2 0 1 1\n2\n4\n6\n0 2 5\n", 3, 5),
        ("aag 3 2 0 1 1\n2\n4\n6\n6  5\n", 3, 5),
        ("aag 3 2 0 1 1\n3\n4\n6\n6 2 5\n", 3, 2),
        ("aag 3 2 0 1 1\n2\n4\n8\n6 2 5\n", 3, 4),
        ("aag 3 2 0 1 1\n2\n\n", 3, 3),
        ("aag 3 2 0 1 1\n2\n2\n6\n6 2 9\n", 4, 3),
        ("aag 3 2 0 1 1\n2\n4\n6\n2 2 5\n", 4, 5),
        ("aag 3 2 0 1 1\n2\n4\n6\n2 2 9\n", 3, 5),
        ("aag 3 2 0 1 1\n", 5, 2),
        ("aag 3 2 0 1 1", 5, 2),
        ("aag 3 2 0 1 1\n2\n4\n", 5, 4),
        ("aag 3 2 0 1 1\n2\n4\n6\n", 5, 5),
        ("aag 4 2 0 1 1\n2\n4\n6\n6 2 8\n", 6, 5),
        ("aag 4 2 0 1 1\n2\n4\n8\n6 2 9\n", 6, 4),
        ("aag 3 2 0 1 1\n2\n4\n6\n6 6 5\n", 7, 5),
        ("aag 4 1 0 1 3\n2\n4\n8 6 2\n6 4 2\n4 6 3\n", 7, 5),
    ];
    for (text, number, line) in cases.iter() {
        assert!(rt; refusal(alloc, *text) == (*number, *line));
    }
    Ok(())
}

/// Whether the text that a graph has is read as that graph.
fn is_kept(alloc: Global, text: &str) -> Result<bool, Memory> {
    match read_aag(alloc, text.as_bytes()) {
        Ok((aig, root)) => {
            let names: Vec<Text> = Vec::new(alloc);
            Ok(aag(alloc, &aig, root, names.as_slice())?.as_slice() == text.as_bytes())
        }
        Err(_) => Ok(false),
    }
}

#[test]
fn texts_are_written_as_they_were_read(rt: HostRuntime) -> Result<(), Fail> {
    let alloc = rt.alloc();
    assert!(rt; is_kept(alloc, "aag 0 0 0 1 0\n1\n")?);
    assert!(rt; is_kept(alloc, "aag 4 2 0 1 2\n2\n4\n9\n6 2 5\n8 3 6\n")?);
    Ok(())
}

/// A line of a gate.
fn put_gate(text: &mut String, gate: u32, left: u32, right: u32) -> Result<(), Memory> {
    write!(text, "{} {} {}\n", gate, left, right)?;
    Ok(())
}

/// A chain of so many gates behind one input, the last one first.
fn chain(alloc: Global, gates: u32) -> Result<String, Memory> {
    let mut text = String::new(alloc);
    let last = 2 * (gates.min(1000000) + 1);
    write!(text, "aag {} 1 0 1 {gates}\n2\n{last}\n", last / 2)?;
    for step in 0..gates.min(1000000) {
        let gate = last.saturating_sub(2 * step);
        put_gate(&mut text, gate, gate.saturating_sub(2), 3)?;
    }
    Ok(text)
}

#[test]
fn long_chains_are_read(rt: HostRuntime) -> Result<(), Fail> {
    let alloc = rt.alloc();
    let text = chain(alloc, 1000000)?;
    match read_aag(alloc, text.as_bytes()) {
        Ok((aig, root)) => {
            assert!(rt; aig.len() == 1000002);
            assert!(rt; root == 2000002);
        }
        Err(_) => assert!(rt; false),
    }
    Ok(())
}
