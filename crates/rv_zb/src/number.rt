ghost use Rattle.std.specs.Prelude.{◌≡◌, ◌<◌, ◌↔◌, slice_get, IsNone, Some};
ghost use Rattle.rv_zb.specs.Rows as rows;

use crate::row::{BitRow, ShiftAddRow, ZbRow};

impl ZbRow {
    const ALL: [ZbRow; 11] = [
        ZbRow::ShiftAdd(ShiftAddRow::Sh1add),
        ZbRow::ShiftAdd(ShiftAddRow::Sh2add),
        ZbRow::ShiftAdd(ShiftAddRow::Sh3add),
        ZbRow::Bit(BitRow::Clear),
        ZbRow::Bit(BitRow::Extract),
        ZbRow::Bit(BitRow::Invert),
        ZbRow::Bit(BitRow::Set),
        ZbRow::BitImmediate(BitRow::Clear),
        ZbRow::BitImmediate(BitRow::Extract),
        ZbRow::BitImmediate(BitRow::Invert),
        ZbRow::BitImmediate(BitRow::Set),
    ];

    /// The rows in order: three of Zba, four of Zbs, and the same four with the bit's number in the word.
    pub fn all() -> &'static [ZbRow]
        ensures { result.now ≡ rows.zb_rows }
    {
        &ZbRow::ALL
    }

    /// The row of a number, in the order of `all`. None exactly where the number is above 10.
    #[tactic(auto, using(crate::proofs::Places::none_above))]
    pub fn new(number: u32) -> Option<ZbRow>
        ensures row { result ≡ slice_get rows.zb_rows number }
        ensures none { IsNone result ↔ (10 < number) }
    {
        row_at(ZbRow::all(), number as usize)
    }

    /// The row's place in the order of `all`, from 0 to 10.
    #[tactic(auto, using(crate::proofs::Places::row_at))]
    pub fn number(self) -> u32
        ensures value { result ≡ rows.zb_number self }
        ensures place { slice_get rows.zb_rows result ≡ Some self }
    {
        match self {
            ZbRow::ShiftAdd(row) => row as u32,
            ZbRow::Bit(row) => 3 + row as u32,
            ZbRow::BitImmediate(row) => 7 + row as u32,
        }
    }
}

fn row_at(rows: &[ZbRow], index: usize) -> Option<ZbRow>
    ensures { result ≡ slice_get rows.now index }
{
    rows.get(index).copied()
}
