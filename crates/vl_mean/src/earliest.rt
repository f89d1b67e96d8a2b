//! Which of two faults of a constant expression is answered.
ghost use Rattle.std.specs.Prelude.{◌≡◌, option_map};
ghost use Rattle.vl_mean.specs.ConstantFaults as spec;

use crate::const_fault::ConstFault;
use fv_text::Pos;
use vl_size::earlier::is_earlier;

/// The one at the earlier place, or at one place the first in the order of faults; of two alike the first.
pub(crate) fn earlier(first: Option<ConstFault>, second: Option<ConstFault>) -> Option<ConstFault>
    ensures { result ≡ spec.earlier first second }
{
    match (first, second) {
        (None, second) => second,
        (Some(first), None) => Some(first),
        (Some(first), Some(second)) => if comes_before(&second, &first) {
            Some(second)
        } else {
            Some(first)
        },
    }
}

fn comes_before(first: &ConstFault, second: &ConstFault) -> bool
    ensures { result ≡ spec.comes_before first.now second.now }
{
    let p = fault_place(first);
    let q = fault_place(second);
    if is_earlier(p, q) {
        return true;
    }
    !is_earlier(q, p) && rank(first) < rank(second)
}

fn fault_place(fault: &ConstFault) -> Pos
    ensures { result ≡ spec.fault_place fault.now }
{
    match fault {
        ConstFault::NotConstant(pos) | ConstFault::ZeroDivisor(pos) | ConstFault::Range(pos) =>
            *pos,
        ConstFault::TooWide(pos, _) => *pos,
        ConstFault::Memory => Pos {
            file: 0,
            line: 0,
            col: 0,
        },
    }
}

fn rank(fault: &ConstFault) -> u32
    ensures { result ≡ spec.rank fault.now }
{
    match fault {
        ConstFault::NotConstant(_) => 1,
        ConstFault::ZeroDivisor(_) => 2,
        ConstFault::TooWide(_, _) => 3,
        ConstFault::Range(_) => 4,
        ConstFault::Memory => 5,
    }
}
