use fv_bit_sets::Bits;

/// What a driver reads before it has surely assigned it, and what it may assign.
#[derive(Debug, Drop)]
pub struct Footprint {
    /// It acts at the clock's edge, so it stands in no order.
    pub is_clocked: bool,
    pub needs: Bits,
    pub drives: Bits,
}
