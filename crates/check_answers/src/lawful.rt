//! The tests that a check is lawful.

ghost use Rattle.std.specs.Prelude.{IsTrue, ◌≡◌};
ghost use Rattle.ck_cfg.specs.Lawful as lawful;

use ck_cfg::{Check, CheckKind};
use rv_table::RowId;

/// Whether a row is there exactly where the kind is insn.
fn row_fits(kind: CheckKind, row: Option<RowId>) -> bool
    ensures { IsTrue result → lawful.RowFits kind row }
{
    match kind {
        CheckKind::Insn => row.is_some(),
        CheckKind::Ill
        | CheckKind::Reg
        | CheckKind::PcFwd
        | CheckKind::PcBwd
        | CheckKind::Causal
        | CheckKind::Unique
        | CheckKind::Liveness
        | CheckKind::Imem
        | CheckKind::Dmem => row.is_none(),
    }
}

/// The first cycle that a check of the kind may have.
fn least_cycle(kind: CheckKind) -> u32
    ensures { result ≡ lawful.least_cycle kind }
{
    match kind {
        CheckKind::Insn | CheckKind::Ill | CheckKind::Imem => 1,
        _ => 0,
    }
}

/// Whether the check is lawful, and of one of so many channels.
pub(crate) fn is_check(channels: usize, check: &Check) -> bool
    ensures { IsTrue result → lawful.IsCheck channels check.now }
{
    row_fits(check.kind, check.row)
        && check.start <= check.trig
        && check.trig <= check.cycle
        && least_cycle(check.kind) <= check.cycle
        && check.cycle <= 100
        && (check.channel as usize) < channels
}
