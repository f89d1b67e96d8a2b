ghost use Rattle.std.specs.Prelude.{◌≡◌, ◌||◌};
ghost use Rattle.vl_flow_spec.specs.Paths as spec;
ghost use Rattle.vl_tree.specs.Stmt.{Arms};
ghost use Rattle.vl_tree.specs.StmtView.{arms, with_arm};

use vl_tree::Arm;

fn is_default(arm: &Arm) -> bool
    ensures { (rest : Arms) → spec.has_default (with_arm arm.now rest) ≡ (result || spec.has_default rest) }
{
    match arm {
        Arm::Labels(_, _, _) => false,
        Arm::Default(_, _, _) => true,
    }
}

/// Whether one of the arms is a default.
pub(crate) fn has_default(all: &[Arm]) -> bool
    ensures { result ≡ spec.has_default (arms all.now) }
{
    for arm in all {
        if is_default(arm) {
            return true;
        }
    }
    false
}
