//! Properties of one retirement alone.

ghost use Rattle.std.specs.Prelude.{◌≡◌};
ghost use Rattle.ck_spec.specs.Properties as properties;

use ck_spec::Probe;
use rv_table::{Opts, Retire, RowId, agrees, effect_of, matches};

/// A word of the row does what the row does.
pub(crate) fn does_as_row(row: Option<RowId>, opts: Opts, retire: &Retire) -> bool
    ensures { result ≡ properties.does_as_row row opts retire.now }
{
    match row {
        Some(row) => !matches(row, retire.insn) || agrees(retire, &effect_of(row, retire, opts)),
        None => true,
    }
}

pub(crate) fn traps_zeros(retire: &Retire) -> bool
    ensures { result ≡ properties.traps_zeros retire.now }
{
    retire.insn % 0x1_0000 != 0 || retire.trap && retire.rd_addr == 0 && retire.mem_wmask == 0
}

/// The half words of the instruction that lie at the probed address are the probed one.
pub(crate) fn has_probed_halves(probe: &Probe, retire: &Retire) -> bool
    ensures { result ≡ properties.has_probed_halves probe.now retire.now }
{
    let data = u32::from(probe.imem_data);
    let low = retire.pc_rdata != probe.imem_addr || retire.insn % 0x1_0000 == data;
    let is_long = retire.insn % 4 == 3;
    let high = !(is_long && retire.pc_rdata.wrapping_add(2) == probe.imem_addr)
        || retire.insn / 0x1_0000 == data;
    low && high
}
