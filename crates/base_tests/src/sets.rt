//! Small sets of bits of cells.

use fv_bit_sets::Bits;
use std::alloc::Global;
use std::process::Abort;
use std::test::Fail;

/// Cells 2 to 4 with the two lowest bits, and cell 4 with the lowest.
fn two_sets(alloc: Global) -> Result<(Bits, Bits), Fail> {
    Ok((
        Bits::of_cells(alloc, 2, 5, 3)?,
        Bits::of_cells(alloc, 4, 5, 1)?,
    ))
}

fn masks_are(rt: &impl Abort, set: &Bits, masks: &[u128]) -> Result<(), Fail> {
    for (cell, mask) in masks.iter().enumerate() {
        assert_eq!(rt; set.mask(cell as u64), *mask);
    }
    Ok(())
}

#[test]
fn bits_are_joined(rt: HostRuntime) -> Result<(), Fail> {
    let (first, second) = two_sets(rt.alloc())?;
    masks_are(&rt, &Bits::none(rt.alloc()), &[0, 0])?;
    masks_are(&rt, &first, &[0, 0, 3, 3, 3, 0])?;
    masks_are(&rt, &second.with(&first)?, &[0, 0, 3, 3, 3, 0])?;
    masks_are(&rt, &first.shared_with(&second)?, &[0, 0, 0, 0, 1, 0])?;
    masks_are(&rt, &first.without(&second)?, &[0, 0, 3, 3, 2, 0])?;
    Ok(())
}

#[test]
fn bits_are_found(rt: HostRuntime) -> Result<(), Fail> {
    let (first, second) = two_sets(rt.alloc())?;
    assert_eq!(rt; first.first_from(0), Some(2));
    assert_eq!(rt; first.first_from(4), Some(4));
    assert_eq!(rt; first.first_from(5), None);
    assert!(rt; first.meets(&second, 0, 5));
    assert!(rt; !first.meets(&second, 0, 4));
    assert!(rt; !first.without(&second)?.meets(&second, 0, 9));
    Ok(())
}
