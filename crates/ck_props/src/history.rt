//! Looking for retirements among those that a check looks at.

ghost use Rattle.std.specs.Prelude.{◌≡◌, ◌+◌, ◌<◌, ◌==◌, ◌&&◌, not, nat_lt};
ghost use Rattle.rv_table.specs.Agree.{has};
ghost use Rattle.ck_spec.specs.Lists as lists;
ghost use Rattle.ck_spec.specs.Properties as properties;

use ck_cfg::Check;
use ck_spec::{Retired, looks_both_ways};
use rv_table::{Retire, has_byte};

/// It retired in the cycle, in the channel of the check.
pub(crate) fn is_at(check: &Check, cycle: u32, retired: &Retired) -> bool
    ensures { result ≡ lists.is_at check.now cycle retired.now }
{
    retired.cycle == cycle && retired.channel == check.channel
}

pub(crate) fn found_at(check: &Check, cycle: u32, retires: &[Retired]) -> Option<Retired>
    ensures { result ≡ lists.found_at check.now cycle retires.now }
{
    retires
        .iter()
        .copied()
        .find(|retired| is_at(check, cycle, retired))
}

/// It retired in a cycle that the check looks at.
pub(crate) fn counts(check: &Check, retired: &Retired) -> bool
    ensures { result ≡ lists.counts check.now retired.now }
{
    check.start <= retired.cycle && retired.cycle <= check.cycle
}

/// It counts as earlier than the retirement that the check is about.
pub(crate) fn is_earlier(check: &Check, retired: &Retired) -> bool
    ensures { result ≡ lists.is_earlier check.now retired.now }
{
    if looks_both_ways(check.kind) {
        is_other(check, retired)
    } else {
        stands_before(check, retired)
    }
}

/// It stands before the retirement that the check is about.
fn stands_before(check: &Check, retired: &Retired) -> bool
    ensures { result ≡ lists.stands_before check.now retired.now }
{
    counts(check, retired)
        && (retired.cycle < check.cycle
            || retired.cycle == check.cycle && retired.channel < check.channel)
}

/// It isn't the retirement that the check is about.
fn is_other(check: &Check, retired: &Retired) -> bool
    ensures { result ≡ lists.is_other check.now retired.now }
{
    counts(check, retired) && !is_at(check, check.cycle, retired)
}

/// The last that wrote the register in an order below this one.
pub(crate) fn last_write(
    check: &Check,
    retires: &[Retired],
    order: u64,
    register: u32,
) -> Option<Retired>
    ensures { result ≡ lists.last_earlier check.now
        (λ e. nat_lt e.order order && e.rd_addr == register) retires.now }
{
    retires
        .iter()
        .rev()
        .find(|retired| {
            is_earlier(check, *retired)
                && (retired.retire.order < order && retired.retire.rd_addr == register)
        })
        .copied()
}

/// The last of the order before this one.
pub(crate) fn last_before(check: &Check, retires: &[Retired], order: u64) -> Option<Retired>
    ensures { result ≡ lists.last_earlier check.now (λ e. order == e.order + 1) retires.now }
{
    retires
        .iter()
        .rev()
        .find(|retired| { is_earlier(check, *retired) && follows(order, retired.retire.order) })
        .copied()
}

/// The last of the order behind this one that is no interrupt.
pub(crate) fn last_behind(check: &Check, retires: &[Retired], order: u64) -> Option<Retired>
    ensures { result ≡ lists.last_earlier check.now (λ e. not e.intr && e.order == order + 1) retires.now }
{
    retires
        .iter()
        .rev()
        .find(|retired| {
            is_earlier(check, *retired)
                && (!retired.retire.intr && follows(retired.retire.order, order))
        })
        .copied()
}

/// The one order is that behind the other.
pub(crate) fn follows(order: u64, other: u64) -> bool
    ensures { result ≡ (order == other + 1) }
{
    order > 0 && order - 1 == other
}

/// The last that wrote the byte of the word at the address.
pub(crate) fn last_store(
    check: &Check,
    retires: &[Retired],
    address: u32,
    index: u32,
) -> Option<Retired>
    requires { index < 4 }
    ensures { result ≡ lists.last_earlier check.now
        (λ e. e.mem_addr == address && has e.mem_wmask index) retires.now }
{
    retires
        .iter()
        .rev()
        .find(|retired| {
            is_earlier(check, *retired)
                && (retired.retire.mem_addr == address && has_byte(retired.retire.mem_wmask, index))
        })
        .copied()
}

/// Whether some earlier one of a higher order read the register.
pub(crate) fn is_read_early(check: &Check, retires: &[Retired], retire: &Retire) -> bool
    ensures { result ≡ lists.any_earlier check.now (λ e. properties.reads_early e retire.now) retires.now }
{
    retires.iter().any(|other| is_earlier(check, other) && reads_early(&other.retire, retire))
}

/// It has a higher order and reads the register that the other one writes.
fn reads_early(other: &Retire, retire: &Retire) -> bool
    ensures { result ≡ properties.reads_early other.now retire.now }
{
    retire.order < other.order
        && (other.rs1_addr == retire.rd_addr || other.rs2_addr == retire.rd_addr)
}

/// Whether the order behind this one is there.
pub(crate) fn has_next(check: &Check, retires: &[Retired], order: u64) -> bool
    ensures { result ≡ lists.has_next check.now order retires.now }
{
    retires.iter().any(|other| counts(check, other) && follows(other.retire.order, order))
}
