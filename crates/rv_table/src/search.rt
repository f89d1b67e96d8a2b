ghost use Rattle.std.specs.Prelude.{◌≡◌, ◌&&◌, true, false, find, IfSome, IfNone, Some};
ghost use Rattle.rv_table.specs.Matching as matching;

use crate::retire::Isa;
use crate::row::{BaseRow, RowId};
use crate::table::demands;

/// The row of the instruction set that the word matches: at most one does. None exactly where none does.
#[tactic(auto, using(crate::proofs::Unique::search))]
pub fn row_of(insn: u32, isa: Isa) -> Option<RowId>
    ensures found { IfSome result (matching.IsMatch isa insn) }
    ensures only { (row : RowId) → matching.IsMatch isa insn row → result ≡ Some row }
    ensures none { IfNone result ((row : RowId) → matching.has isa row ≡ true
        → matching.matches row insn ≡ false) }
    ensures without_m { IfSome result (λ row. isa.m ≡ false → matching.is_of_m row ≡ false) }
    ensures without_c { IfSome result (λ row. isa.c ≡ false → matching.is_of_c row ≡ false) }
{
    row_among(RowId::all(), insn, isa)
}

fn row_among(rows: &[RowId], insn: u32, isa: Isa) -> Option<RowId>
    ensures { result ≡ find (λ row. matching.has isa row && matching.matches row insn) rows.now }
{
    rows.iter()
        .copied()
        .find(|row| isa.has(*row) && matches(*row, insn))
}

/// The word meets all that the row asks.
#[tactic(auto, unfolding(crate::specs::Matching::matches))]
pub fn matches(row: RowId, insn: u32) -> bool
    ensures { result ≡ matching.matches row insn }
{
    demands(row).iter().all(|demand| demand.is_met(insn))
}

impl Isa {
    /// The instruction set has the row.
    pub fn has(self, row: RowId) -> bool
        ensures { result ≡ matching.has self row }
    {
        match row {
            RowId::Base(BaseRow::Multiply(_)) => self.m,
            RowId::Base(_) => true,
            RowId::Compressed(_) => self.c,
        }
    }
}
