//! Where the rows of extension C have their registers and immediates.

ghost use Rattle.std.specs.Prelude.{◌≡◌, ℕ, true};
ghost use Rattle.rv_table.specs.Compressed as compressed;
ghost use Rattle.rv_expand.specs.Places as places;

use rv_table::CompressedRow;

/// Where a half word has a register.
#[derive(Debug, Clone, Copy, PartialEq, Eq)]
pub enum RegisterPlace {
    /// It is always this one, below 32.
    Always(u32),
    /// Bits 11:7.
    Far,
    /// Bits 6:2.
    Second,
    /// x8 to x15 by bits 9:7.
    NearHigh,
    /// x8 to x15 by bits 4:2.
    NearLow,
}

/// Which immediate a half word has.
#[derive(Debug, Clone, Copy, PartialEq, Eq)]
pub enum ImmediatePlace {
    Zero,
    /// A signed number of six bits.
    Six,
    /// The amount of a shift.
    Amount,
    Addi4spn,
    Addi16sp,
    Lui,
    Word,
    Lwsp,
    Swsp,
    Jump,
    Branch,
}

/// The registers and the immediate of the word that a half word stands for.
#[derive(Debug, Clone, Copy, PartialEq, Eq)]
pub struct Places {
    pub rd: RegisterPlace,
    pub rs1: RegisterPlace,
    pub rs2: RegisterPlace,
    pub immediate: ImmediatePlace,
}

impl Places {
    fn new(
        rd: RegisterPlace,
        rs1: RegisterPlace,
        rs2: RegisterPlace,
        immediate: ImmediatePlace,
    ) -> Places
        ensures { result ≡ record { rd = rd; rs1 = rs1; rs2 = rs2; immediate = immediate } }
    {
        Places {
            rd,
            rs1,
            rs2,
            immediate,
        }
    }

    /// Those of a row.
    #[tactic(auto, unfolding(rv_table::specs::Compressed::operands))]
    pub(crate) fn of(row: CompressedRow) -> Places
        ensures value { (h : ℕ) → places.operands_at result h ≡ compressed.operands row h }
        ensures registers { places.are_registers result ≡ true }
    {
        use ImmediatePlace::{
            Addi4spn, Addi16sp, Amount, Branch, Jump, Lui, Lwsp, Six, Swsp, Word, Zero,
        };
        use RegisterPlace::{Always, Far, NearHigh, NearLow, Second};
        const NONE: RegisterPlace = Always(0);
        match row {
            CompressedRow::CAddi4spn => Places::new(NearLow, Always(2), NONE, Addi4spn),
            CompressedRow::CLw => Places::new(NearLow, NearHigh, NONE, Word),
            CompressedRow::CSw => Places::new(NONE, NearHigh, NearLow, Word),
            CompressedRow::CAddi => Places::new(Far, Far, NONE, Six),
            CompressedRow::CJal => Places::new(Always(1), NONE, NONE, Jump),
            CompressedRow::CLi => Places::new(Far, NONE, NONE, Six),
            CompressedRow::CAddi16sp => Places::new(Always(2), Always(2), NONE, Addi16sp),
            CompressedRow::CLui => Places::new(Far, NONE, NONE, Lui),
            CompressedRow::CSrli | CompressedRow::CSrai => {
                Places::new(NearHigh, NearHigh, NONE, Amount)
            }
            CompressedRow::CAndi => Places::new(NearHigh, NearHigh, NONE, Six),
            CompressedRow::CSub | CompressedRow::CXor | CompressedRow::COr | CompressedRow::CAnd =>
                { Places::new(NearHigh, NearHigh, NearLow, Zero) }
            CompressedRow::CJ => Places::new(NONE, NONE, NONE, Jump),
            CompressedRow::CBeqz | CompressedRow::CBnez => {
                Places::new(NONE, NearHigh, NONE, Branch)
            }
            CompressedRow::CSlli => Places::new(Far, Far, NONE, Amount),
            CompressedRow::CLwsp => Places::new(Far, Always(2), NONE, Lwsp),
            CompressedRow::CJr => Places::new(NONE, Far, NONE, Zero),
            CompressedRow::CMv => Places::new(Far, NONE, Second, Zero),
            CompressedRow::CJalr => Places::new(Always(1), Far, NONE, Zero),
            CompressedRow::CAdd => Places::new(Far, Far, Second, Zero),
            CompressedRow::CSwsp => Places::new(NONE, Always(2), Second, Swsp),
        }
    }
}
