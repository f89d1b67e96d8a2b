ghost use Rattle.std.specs.Prelude.{◌≡◌};
ghost use Rattle.ck_spec.specs.Lists as lists;

use ck_cfg::CheckKind;

/// Whether a check of the kind looks at all other retirements, also behind the one that it is about.
pub fn looks_both_ways(kind: CheckKind) -> bool
    ensures { result ≡ lists.looks_both_ways kind }
{
    match kind {
        CheckKind::Reg | CheckKind::PcFwd | CheckKind::PcBwd => true,
        _ => false,
    }
}
