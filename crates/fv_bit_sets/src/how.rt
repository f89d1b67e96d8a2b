ghost use Rattle.std.specs.Prelude.{◌≡◌, ℕ};
ghost use Rattle.fv_bit_sets.specs.Cells.{is_set};
ghost use Rattle.fv_bit_sets.specs.Ways.{way_of};

/// Which bits of two sets are taken.
#[derive(Debug, Clone, Copy, PartialEq, Eq)]
pub(crate) enum How {
    Either,
    Both,
    /// Those of the first that the second hasn't.
    FirstAlone,
}

impl How {
    #[tactic(auto, using(crate::proofs::Masks::masks))]
    pub(crate) fn of(self, first: u128, second: u128) -> u128
        ensures { (bit : ℕ) → is_set result bit ≡ way_of self (is_set first bit) (is_set second bit) }
    {
        match self {
            How::Either => first | second,
            How::Both => first & second,
            How::FirstAlone => first & !second,
        }
    }
}
