//! Checks that look at one cycle alone.

ghost use Rattle.std.specs.Prelude.{◌≡◌};
ghost use Rattle.ck_gen.specs.Monitors.{is_of_one_cycle};
ghost use Rattle.ck_induct.specs.OneCycle.{in_cycle};

use ck_cfg::{Check, CheckKind};

/// Whether checks of this kind look at one cycle alone.
pub fn is_of_one_cycle(kind: CheckKind) -> bool
    ensures { result ≡ is_of_one_cycle kind }
{
    matches!(kind, CheckKind::Insn | CheckKind::Ill | CheckKind::Imem)
}

/// The check with this cycle in place of its own.
pub fn in_cycle(check: Check, cycle: u32) -> Check
    ensures { result ≡ in_cycle check cycle }
{
    Check {
        start: cycle,
        trig: cycle,
        cycle,
        ..check
    }
}
