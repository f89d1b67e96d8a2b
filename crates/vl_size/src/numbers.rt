//! The numbers of a constant in all contexts, so that none of its parts is evaluated again for another one.
ghost use Rattle.std.specs.Prelude.{◌≡◌, ◌<◌, ◌≤◌, ◌^◌, get_or, true, false, if◌then◌else◌};
ghost use Rattle.fv_bits.specs.Bits as bits;
ghost use Rattle.vl_size.specs.Size as spec;
ghost use Rattle.vl_size.specs.Rows.{IsRow};

use crate::row::Row;
use vl_tree::BinaryOperator;

/// A number for each width from 0 to 128, where the context is unsigned and where it is signed.
#[derive(Drop)]
pub(crate) struct Numbers {
    unsigned: Row,
    signed: Row,
}

impl Numbers {
    pub(crate) fn zero() -> Numbers {
        Numbers {
            unsigned: Row::zero(),
            signed: Row::zero(),
        }
    }

    pub(crate) fn at(&self, width: u32, signed: bool) -> u128
        requires { width ≤ 128 }
        ensures value { result ≡ (if signed then get_or self.now.signed.at width 0
            else get_or self.now.unsigned.at width 0) }
        ensures fits { result < 2 ^ width }
    {
        if signed {
            self.signed.at(width)
        } else {
            self.unsigned.at(width)
        }
    }

    pub(crate) fn clear(&mut self)
        ensures unsigned { IsRow self.new.unsigned.at (λ w. 0) }
        ensures signed { IsRow self.new.signed.at (λ w. 0) }
    {
        self.unsigned = Row::zero();
        self.signed = Row::zero();
    }

    /// Those of a number of so many bits, which is extended by its sign bit where the context is signed.
    pub(crate) fn extend(&mut self, from: u32, number: u128)
        requires { from ≤ 128 }
        ensures unsigned { IsRow self.new.unsigned.at (λ w. bits.extended from w false number) }
        ensures signed { IsRow self.new.signed.at (λ w. bits.extended from w true number) }
    {
        self.unsigned = Row::extended(from, false, number);
        self.signed = Row::extended(from, true, number);
    }

    pub(crate) fn negate(&mut self)
        ensures unsigned { IsRow self.new.unsigned.at (λ w. bits.negative w (get_or self.old.unsigned.at w 0)) }
        ensures signed { IsRow self.new.signed.at (λ w. bits.negative w (get_or self.old.signed.at w 0)) }
    {
        self.unsigned = self.unsigned.negated();
        self.signed = self.signed.negated();
    }

    pub(crate) fn complement(&mut self)
        ensures unsigned { IsRow self.new.unsigned.at (λ w. bits.complement w (get_or self.old.unsigned.at w 0)) }
        ensures signed { IsRow self.new.signed.at (λ w. bits.complement w (get_or self.old.signed.at w 0)) }
    {
        self.unsigned = self.unsigned.complemented();
        self.signed = self.signed.complemented();
    }

    /// With the numbers of the operand at the right.
    pub(crate) fn combine(&mut self, operator: BinaryOperator, right: &Numbers)
        ensures unsigned { IsRow self.new.unsigned.at
            (λ w. spec.arithmetic operator w false (get_or self.old.unsigned.at w 0)
            (get_or right.now.unsigned.at w 0)) }
        ensures signed { IsRow self.new.signed.at
            (λ w. spec.arithmetic operator w true (get_or self.old.signed.at w 0) (get_or right.now.signed.at w 0)) }
    {
        self.unsigned = self.unsigned.combined(operator, false, &right.unsigned);
        self.signed = self.signed.combined(operator, true, &right.signed);
    }

    pub(crate) fn shift(&mut self, operator: BinaryOperator, by: u128)
        ensures unsigned { IsRow self.new.unsigned.at
            (λ w. spec.shifted operator w false (get_or self.old.unsigned.at w 0) by) }
        ensures signed { IsRow self.new.signed.at
            (λ w. spec.shifted operator w true (get_or self.old.signed.at w 0) by) }
    {
        self.unsigned = self.unsigned.shifted(operator, false, by);
        self.signed = self.signed.shifted(operator, true, by);
    }
}
