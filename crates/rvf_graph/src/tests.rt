//! Clauses of small graphs, as they are worked out by hand.

use crate::clauses_of_text;
use fv_text::Memory;
use std::alloc::Global;
use std::test::Fail;

/// Whether a text has so many inputs and gates and these clauses.
fn comes_to(alloc: Global, text: &[u8], inputs: u64, gates: u64, clauses: &[u8]) -> bool {
    match clauses_of_text(alloc, text) {
        Ok(made) => made.inputs == inputs && made.gates == gates && made.clauses.bytes() == clauses,
        Err(_) => false,
    }
}

#[test]
fn a_gate_has_three_clauses(rt: HostRuntime) -> Result<(), Fail> {
    let clauses = b"p cnf 4 6\n-3 1 0\n-3 -2 0\n3 -1 2 0\n-4 3 0\n4 -3 0\n4 0\n".as_slice();
    assert!(rt;
        comes_to(
            rt.alloc(),
            b"aag 3 2 0 1 1\n2\n4\n6\n6 2 5\n",
            2,
            1,
            clauses
        )
    );
    assert!(rt;
        comes_to(
            rt.alloc(),
            b"aag 9 2 0 1 1\n18\n4\n6\n6 18 5\n",
            2,
            1,
            clauses
        )
    );
    Ok(())
}

#[test]
fn an_output_may_be_constant(rt: HostRuntime) -> Result<(), Fail> {
    assert!(rt;
        comes_to(
            rt.alloc(),
            b"aag 0 0 0 1 0\n1\n",
            0,
            0,
            b"p cnf 1 2\n1 0\n1 0\n"
        )
    );
    assert!(rt;
        comes_to(
            rt.alloc(),
            b"aag 0 0 0 1 0\n0\n",
            0,
            0,
            b"p cnf 1 2\n-1 0\n1 0\n"
        )
    );
    assert!(rt;
        comes_to(
            rt.alloc(),
            b"aag 99999999999999999999 1 0 1 0\n2\n2\n",
            1,
            0,
            b"p cnf 2 3\n-2 1 0\n2 -1 0\n2 0\n",
        )
    );
    Ok(())
}

/// The number of a text's refusal; 0 where there is none.
fn refusal(alloc: Global, text: &[u8]) -> u8 {
    match clauses_of_text(alloc, text) {
        Ok(_) => 0,
        Err(fault) => fault.number(),
    }
}

#[test]
fn texts_are_refused(rt: HostRuntime) -> Result<(), Fail> {
    assert!(rt; refusal(rt.alloc(), b"") == 1);
    assert!(rt; refusal(rt.alloc(), b"aag 3 2 0 1 1\n2\n4\n6\n6 6 5\n") == 7);
    Ok(())
}
