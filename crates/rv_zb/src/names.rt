ghost use Rattle.std.specs.Prelude.{◌≡◌};
ghost use Rattle.rv_zb.specs.Rows as rows;

use crate::row::{BitRow, ShiftAddRow, ZbRow};

/// The row's name as the assembler writes it, in small letters.
pub fn zb_name(row: ZbRow) -> &'static str
    ensures { result.now ≡ (rows.zb_row row).name }
{
    match row {
        ZbRow::ShiftAdd(row) => row.name(),
        ZbRow::Bit(row) => row.name(),
        ZbRow::BitImmediate(row) => row.immediate_name(),
    }
}

impl ShiftAddRow {
    fn name(self) -> &'static str
        ensures { result.now ≡ (rows.shift_add_row self).name }
    {
        match self {
            ShiftAddRow::Sh1add => "sh1add",
            ShiftAddRow::Sh2add => "sh2add",
            ShiftAddRow::Sh3add => "sh3add",
        }
    }
}

impl BitRow {
    fn name(self) -> &'static str
        ensures { result.now ≡ (rows.bit_row self).name }
    {
        match self {
            BitRow::Clear => "bclr",
            BitRow::Extract => "bext",
            BitRow::Invert => "binv",
            BitRow::Set => "bset",
        }
    }

    fn immediate_name(self) -> &'static str
        ensures { result.now ≡ (rows.bit_immediate_row self).name }
    {
        match self {
            BitRow::Clear => "bclri",
            BitRow::Extract => "bexti",
            BitRow::Invert => "binvi",
            BitRow::Set => "bseti",
        }
    }
}
