//! A number for each width, made at all widths at once.
ghost use Rattle.std.specs.Prelude.{◌≡◌, ◌<◌, ◌≤◌, ◌^◌, get_or};
ghost use Rattle.fv_bits.specs.Bits as bits;
ghost use Rattle.vl_size.specs.Size as spec;
ghost use Rattle.vl_size.specs.Rows.{AreFit, IsRow};

use crate::operation::{arithmetic, shifted};
use fv_bits::{complement, extended, negative};
use vl_tree::BinaryOperator;

/// A number for each width from 0 to 128.
#[derive(Drop)]
pub(crate) struct Row {
    at: [u128; 129],
    ghost fits: { AreFit at },
}

impl Row {
    /// 0 at each width.
    pub(crate) fn zero() -> Row
        ensures { IsRow result.at (λ w. 0) }
    {
        Row { at: [0; 129] }
    }

    pub(crate) fn at(&self, width: u32) -> u128
        requires { width ≤ 128 }
        ensures value { result ≡ get_or self.now.at width 0 }
        ensures fits { result < 2 ^ width }
    {
        self.at[width as usize]
    }

    /// A number of so many bits, extended by its sign bit where the sign says so.
    pub(crate) fn extended(from: u32, signed: bool, number: u128) -> Row
        requires { from ≤ 128 }
        ensures { IsRow result.at (λ w. bits.extended from w signed number) }
    {
        let mut at = [0u128; 129];
        for width in 0..129u32 {
            at[width as usize] = extended(from, width, signed, number);
        }
        Row { at }
    }

    pub(crate) fn negated(&self) -> Row
        ensures { IsRow result.at (λ w. bits.negative w (get_or self.now.at w 0)) }
    {
        let mut at = [0u128; 129];
        for width in 0..129u32 {
            at[width as usize] = negative(width, self.at(width));
        }
        Row { at }
    }

    pub(crate) fn complemented(&self) -> Row
        ensures { IsRow result.at (λ w. bits.complement w (get_or self.now.at w 0)) }
    {
        let mut at = [0u128; 129];
        for width in 0..129u32 {
            at[width as usize] = complement(width, self.at(width));
        }
        Row { at }
    }

    /// With the row of the operand at the right.
    pub(crate) fn combined(&self, operator: BinaryOperator, signed: bool, right: &Row) -> Row
        ensures { IsRow result.at (λ w. spec.arithmetic operator w signed (get_or self.now.at w 0)
            (get_or right.now.at w 0)) }
    {
        let mut at = [0u128; 129];
        for width in 0..129u32 {
            at[width as usize] = arithmetic(
                operator,
                width,
                signed,
                self.at(width),
                right.at(width),
            );
        }
        Row { at }
    }

    pub(crate) fn shifted(&self, operator: BinaryOperator, signed: bool, by: u128) -> Row
        ensures { IsRow result.at (λ w. spec.shifted operator w signed (get_or self.now.at w 0) by) }
    {
        let mut at = [0u128; 129];
        for width in 0..129u32 {
            at[width as usize] = shifted(operator, width, signed, self.at(width), by);
        }
        Row { at }
    }
}
