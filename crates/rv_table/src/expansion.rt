ghost use Rattle.std.specs.Prelude.{◌≡◌, true, false, find, IfSome, IfNone, Some};
ghost use Rattle.rv_table.specs.declared.row.CompressedRow.{CompressedRow};
ghost use Rattle.rv_table.specs.declared.row.RowId.TheVariants.{Compressed};
ghost use Rattle.rv_table.specs.Matching.{matches};
ghost use Rattle.rv_table.specs.Effect.{expansion, IsExpansion};

use crate::retire::Isa;
use crate::row::RowId;
use crate::search::row_of;

/// The word that a compressed half word stands for. None exactly where no compressed row matches it.
#[tactic(auto, using(crate::proofs::Unique::unique))]
pub fn expand(half: u16) -> Option<u32>
    ensures found { IfSome result (IsExpansion half) }
    ensures only { (row : CompressedRow) → matches (Compressed row) half ≡ true
        → result ≡ Some (expansion row half) }
    ensures none { IfNone result ((row : CompressedRow) → matches (Compressed row) half ≡ false) }
{
    let insn = u32::from(half);
    match row_of(insn, Isa { m: true, c: true }) {
        Some(RowId::Compressed(row)) => Some(row.expansion(insn)),
        _ => None,
    }
}
