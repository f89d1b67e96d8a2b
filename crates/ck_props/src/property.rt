ghost use Rattle.std.specs.Prelude.{◌≡◌, ◌<◌};
ghost use Rattle.ck_spec.specs.Properties as properties;

use crate::history::{
    counts, found_at, has_next, is_at, is_read_early, last_before, last_behind, last_store,
    last_write,
};
use crate::own::{does_as_row, has_probed_halves, traps_zeros};
use ck_cfg::{Check, CheckKind};
use ck_spec::{Probe, Retired};
use rv_table::{Opts, Retire, byte, has_byte};

/// Whether the retirements have the property of the check. They stand cycle by cycle, in each cycle by channel, without
/// two of the same cycle and channel; those of cycles that the check doesn't look at don't count.
pub fn holds(check: &Check, retires: &[Retired], probe: &Probe, opts: Opts) -> bool
    ensures { result ≡ properties.property check.now retires.now probe.now opts }
{
    let cycle = match check.kind {
        CheckKind::Unique | CheckKind::Liveness => check.trig,
        _ => check.cycle,
    };
    match found_at(check, cycle, retires) {
        Some(found) => holds_at(check, retires, probe, opts, &found.retire),
        None => true,
    }
}

/// The property, of the retirement that the check is about.
fn holds_at(check: &Check, retires: &[Retired], probe: &Probe, opts: Opts, retire: &Retire) -> bool
    ensures { result ≡ properties.holds_at check.now retires.now probe.now opts retire.now check.now.kind }
{
    match check.kind {
        CheckKind::Insn => does_as_row(check.row, opts, retire),
        CheckKind::Ill => traps_zeros(retire),
        CheckKind::Reg => reads_what_was_written(check, retires, retire),
        CheckKind::PcFwd => goes_on(check, retires, retire),
        CheckKind::PcBwd => is_gone_on_from(check, retires, retire),
        CheckKind::Causal => writes_before_reads(check, retires, retire),
        CheckKind::Unique => has_own_order(check, retires, retire),
        CheckKind::Liveness => is_followed(check, retires, retire),
        CheckKind::Imem => has_probed_halves(probe, retire),
        CheckKind::Dmem => loads_what_was_stored(check, retires, probe, retire),
    }
}

fn was_written(check: &Check, retires: &[Retired], order: u64, register: u32, value: u32) -> bool
    ensures { result ≡ properties.was_written check.now retires.now order register value }
{
    if register == 0 {
        return true;
    }
    match last_write(check, retires, order, register) {
        Some(last) => last.retire.rd_wdata == value,
        None => true,
    }
}

fn reads_what_was_written(check: &Check, retires: &[Retired], retire: &Retire) -> bool
    ensures { result ≡ properties.reads_what_was_written check.now retires.now retire.now }
{
    was_written(
        check,
        retires,
        retire.order,
        retire.rs1_addr,
        retire.rs1_rdata,
    ) && was_written(
        check,
        retires,
        retire.order,
        retire.rs2_addr,
        retire.rs2_rdata,
    )
}

fn goes_on(check: &Check, retires: &[Retired], retire: &Retire) -> bool
    ensures { result ≡ properties.goes_on check.now retires.now retire.now }
{
    if retire.intr {
        return true;
    }
    match last_before(check, retires, retire.order) {
        Some(last) => last.retire.pc_wdata == retire.pc_rdata,
        None => true,
    }
}

fn is_gone_on_from(check: &Check, retires: &[Retired], retire: &Retire) -> bool
    ensures { result ≡ properties.is_gone_on_from check.now retires.now retire.now }
{
    match last_behind(check, retires, retire.order) {
        Some(last) => last.retire.pc_rdata == retire.pc_wdata,
        None => true,
    }
}

fn writes_before_reads(check: &Check, retires: &[Retired], retire: &Retire) -> bool
    ensures { result ≡ properties.writes_before_reads check.now retires.now retire.now }
{
    retire.rd_addr == 0 || !is_read_early(check, retires, retire)
}

fn byte_was_written(check: &Check, retires: &[Retired], retire: &Retire, index: u32) -> bool
    requires { index < 4 }
    ensures { result ≡ properties.byte_was_written check.now retires.now retire.now index }
{
    if !has_byte(retire.mem_rmask, index) {
        return true;
    }
    match last_store(check, retires, retire.mem_addr, index) {
        Some(last) => byte(last.retire.mem_wdata, index) == byte(retire.mem_rdata, index),
        None => true,
    }
}

fn loads_what_was_stored(check: &Check, retires: &[Retired], probe: &Probe, retire: &Retire) -> bool
    ensures { result ≡ properties.loads_what_was_stored check.now retires.now probe.now retire.now }
{
    retire.mem_addr != probe.dmem_addr
        || byte_was_written(check, retires, retire, 0)
            && byte_was_written(check, retires, retire, 1)
            && byte_was_written(check, retires, retire, 2)
            && byte_was_written(check, retires, retire, 3)
}

fn has_own_order(check: &Check, retires: &[Retired], retire: &Retire) -> bool
    ensures { result ≡ properties.has_own_order check.now retires.now retire.now }
{
    retires.iter().all(|other| {
        !(counts(check, other) && other.retire.order == retire.order)
            || is_at(check, check.trig, other)
    })
}

fn is_followed(check: &Check, retires: &[Retired], retire: &Retire) -> bool
    ensures { result ≡ properties.is_followed check.now retires.now retire.now }
{
    retire.halt || retire.order == u64::MAX || has_next(check, retires, retire.order)
}
