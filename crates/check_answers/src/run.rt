//! A run of a few cycles as a line gives it, and the numbers that show it at a port.

use crate::line;
use ck_spec::{Probe, Retired};
use fv_text::Memory;
use rv_table::Retire;
use std::alloc::Global;

#[derive(Drop)]
pub(crate) struct Run {
    /// 1 or 2.
    pub(crate) channels: u32,
    pub(crate) retires: Vec<Retired>,
    /// What stands at the port where nothing retires; all fields of a channel that has neither are 0.
    pub(crate) idle: Vec<Retired>,
    /// What the probes show in the cycle of the check; before it they show 0.
    pub(crate) probe: Probe,
}

impl Run {
    /// The run that stands in a line; two channels where it names the second one or says so.
    pub(crate) fn of(alloc: Global, head: &str, rest: &str) -> Result<Run, Memory> {
        let retires = line::retires(alloc, rest, false)?;
        let idle = line::retires(alloc, rest, true)?;
        let two = line::number(head, "nret") == 2
            || line::number(head, "channel") == 1
            || has_second(retires.as_slice())
            || has_second(idle.as_slice());
        Ok(Run {
            channels: if two { 2 } else { 1 },
            retires,
            idle,
            probe: line::probe(head),
        })
    }

    /// The numbers of the inputs in a cycle, where the check is about the cycle `last`.
    pub(crate) fn inputs(&self, alloc: Global, cycle: u32, last: u32) -> Result<Vec<u128>, Memory> {
        let mut numbers = Vec::new(alloc);
        for channel in 0..self.channels {
            for number in self.channel(cycle, channel) {
                numbers.push(number)?;
            }
        }
        for number in self.probes(cycle == last) {
            numbers.push(number)?;
        }
        Ok(numbers)
    }

    /// The numbers of the fields of a channel, in their order.
    fn channel(&self, cycle: u32, channel: u32) -> [u128; 19] {
        if let Some(retire) = found(self.retires.as_slice(), cycle, channel) {
            return fields(1, &retire);
        }
        match found(self.idle.as_slice(), cycle, channel) {
            Some(retire) => fields(0, &retire),
            None => [0; 19],
        }
    }

    fn probes(&self, now: bool) -> [u128; 3] {
        if !now {
            return [0; 3];
        }
        [
            u128::from(self.probe.imem_addr),
            u128::from(self.probe.imem_data),
            u128::from(self.probe.dmem_addr),
        ]
    }
}

/// Whether something stands in the list for channel 1.
fn has_second(list: &[Retired]) -> bool {
    list.iter().any(|shown| shown.channel == 1)
}

/// What stands in the list for the channel in the cycle.
fn found(list: &[Retired], cycle: u32, channel: u32) -> Option<Retire> {
    let found = list
        .iter()
        .find(|shown| shown.cycle == cycle && shown.channel == channel)?;
    Some(found.retire)
}

fn fields(valid: u128, retire: &Retire) -> [u128; 19] {
    [
        valid,
        u128::from(retire.order),
        u128::from(retire.insn),
        u128::from(retire.trap),
        u128::from(retire.halt),
        u128::from(retire.intr),
        u128::from(retire.rs1_addr),
        u128::from(retire.rs2_addr),
        u128::from(retire.rs1_rdata),
        u128::from(retire.rs2_rdata),
        u128::from(retire.rd_addr),
        u128::from(retire.rd_wdata),
        u128::from(retire.pc_rdata),
        u128::from(retire.pc_wdata),
        u128::from(retire.mem_addr),
        u128::from(retire.mem_rmask),
        u128::from(retire.mem_wmask),
        u128::from(retire.mem_rdata),
        u128::from(retire.mem_wdata),
    ]
}
