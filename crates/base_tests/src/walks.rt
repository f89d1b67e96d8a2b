//! Small graphs: their nodes in order, or a circle.

use fv_graph::{Walked, circle_from, is_within, walk};
use fv_text::{List, Memory};
use std::alloc::Global;
use std::test::Fail;

/// So many nodes, of which these lead to others.
fn graph_of(alloc: Global, count: usize, edges: &[(usize, u32)]) -> Result<Vec<List<u32>>, Memory> {
    let mut graph = Vec::new(alloc);
    for _ in 0..count {
        graph.push(List::new(alloc))?;
    }
    for (from, to) in edges {
        if let Some(row) = graph.get_mut(*from) {
            row.push(*to)?;
        }
    }
    Ok(graph)
}

/// The order or the circle of a small graph. No answer where an edge leaves it.
fn walked(alloc: Global, count: usize, edges: &[(usize, u32)]) -> Result<Walked, Memory> {
    let graph = graph_of(alloc, count, edges)?;
    let nodes = graph.as_slice();
    let within = is_within(nodes);
    if within && nodes.len() < 100 {
        return Ok(walk(alloc, nodes)?);
    }
    Err(Memory)
}

fn is_order(walked: &Walked, nodes: &[u32]) -> bool {
    match walked {
        Walked::Order(order) => order.as_slice() == nodes,
        Walked::Circle(_) => false,
    }
}

fn is_circle(walked: &Walked, nodes: &[u32]) -> bool {
    match walked {
        Walked::Order(_) => false,
        Walked::Circle(circle) => circle.as_slice() == nodes,
    }
}

#[test]
fn nodes_stand_behind_their_targets(rt: HostRuntime) -> Result<(), Fail> {
    let alloc = rt.alloc();
    assert!(rt; is_order(&walked(alloc, 0, &[])?, &[]));
    assert!(rt; is_order(&walked(alloc, 3, &[])?, &[0, 1, 2]));
    assert!(rt; is_order(&walked(alloc, 3, &[(0, 1), (1, 2)])?, &[2, 1, 0]));
    assert!(rt; is_order(&walked(alloc, 3, &[(2, 1), (1, 0)])?, &[0, 1, 2]));
    assert!(rt; is_order(&walked(alloc, 2, &[(0, 1), (0, 1)])?, &[1, 0]));
    let diamond = [(0, 1), (0, 2), (1, 3), (2, 3)];
    assert!(rt; is_order(&walked(alloc, 4, &diamond)?, &[3, 1, 2, 0]));
    Ok(())
}

#[test]
fn circles_are_found(rt: HostRuntime) -> Result<(), Fail> {
    let alloc = rt.alloc();
    assert!(rt; is_circle(&walked(alloc, 1, &[(0, 0)])?, &[0]));
    assert!(rt; is_circle(&walked(alloc, 2, &[(0, 1), (1, 0)])?, &[0, 1]));
    assert!(rt; is_circle(&walked(alloc, 3, &[(0, 1), (1, 2), (2, 1)])?, &[1, 2]));
    let five = [(0, 1), (1, 2), (2, 3), (3, 4), (4, 2)];
    assert!(rt; is_circle(&walked(alloc, 5, &five)?, &[2, 3, 4]));
    Ok(())
}

#[test]
fn a_circle_is_turned(rt: HostRuntime) -> Result<(), Fail> {
    let turned = circle_from(rt.alloc(), &[1, 2, 3], 2)?;
    assert_eq!(rt; turned.as_slice(), [3, 1, 2].as_slice());
    Ok(())
}
