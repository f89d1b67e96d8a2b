//! What circuits show of a case.
#![tactic(auto, using(rv_circ::proofs::ChannelLemmas::channels))]

ghost use Rattle.std.specs.Prelude.{IfOk};
ghost use Rattle.wn_net.specs.Changes.{AddsNodes};
ghost use Rattle.rvfi_port.specs.Ports.{AreChannelNodes};
ghost use Rattle.rv_rows.specs.Effects.{AreEffect};
ghost use Rattle.rv_circ.specs.Effects.{outcome_of};

use crate::case::{Case, Row};
use crate::channel::play;
use crate::values::values_of;
use fv_text::Memory;
use rv_circ::{EffectNodes, agreement, circuit};
use rv_table::{Effect, Retire, effect_of, matches};
use rv_zb::{ZbRow, zb_circuit, zb_effect, zb_monitor, zb_row_of};
use rvfi_port::Channel;
use std::alloc::Global;
use wn_net::{Net, NodeId};

/// The value of a node of up to 32 bits.
fn value(values: &[u128], node: NodeId) -> u32 {
    match values.get(node as usize) {
        Some(value) => u32::try_from(*value).unwrap_or(u32::MAX),
        None => u32::MAX,
    }
}

/// The effect that the nodes show, where the word is one of the row.
fn shown_effect(values: &[u128], nodes: &EffectNodes) -> Option<Effect> {
    if value(values, nodes.hit) == 0 {
        return None;
    }
    Some(Effect {
        rs1_addr: value(values, nodes.rs1_addr),
        rs2_addr: value(values, nodes.rs2_addr),
        rd_addr: value(values, nodes.rd_addr),
        rd_wdata: value(values, nodes.rd_wdata),
        pc_wdata: value(values, nodes.pc_wdata),
        mem_addr: value(values, nodes.mem_addr),
        rmask: value(values, nodes.rmask),
        wmask: value(values, nodes.wmask),
        wdata: value(values, nodes.wdata),
        trap: value(values, nodes.trap) == 1,
    })
}

/// The circuit of the case's row.
fn row_circuit(net: &mut Net, channel: &Channel, case: &Case) -> Result<EffectNodes, Memory>
    requires { AreChannelNodes net.old channel.now }
    ensures adds { AddsNodes net.old net.new }
    ensures there { IfOk result (λ e. AreEffect net.new (outcome_of e)) }
{
    match case.row {
        Row::Base(row) => circuit(net, channel, row, case.opts),
        Row::Zb(row) => zb_circuit(net, channel, row),
    }
}

/// What the row's circuit shows of the retirement.
fn circuit_shows(alloc: Global, case: &Case) -> Result<Option<Effect>, Memory> {
    let mut net = Net::new(alloc);
    let channel = play(&mut net, &case.retire)?;
    let nodes = row_circuit(&mut net, &channel, case)?;
    let values = values_of(alloc, &net)?;
    Ok(shown_effect(values.as_slice(), &nodes))
}

/// What the node of agreement shows, over the row's circuit.
fn agreement_shows(alloc: Global, case: &Case) -> Result<bool, Memory> {
    let mut net = Net::new(alloc);
    let channel = play(&mut net, &case.retire)?;
    let nodes = row_circuit(&mut net, &channel, case)?;
    let test = agreement(&mut net, &channel, &nodes)?;
    let values = values_of(alloc, &net)?;
    Ok(value(values.as_slice(), test) == 1)
}

/// What the monitor of a row of Zba and Zbs shows.
fn monitor_shows(alloc: Global, row: ZbRow, retire: &Retire) -> Result<bool, Memory> {
    let mut net = Net::new(alloc);
    let channel = play(&mut net, retire)?;
    let test = zb_monitor(&mut net, &channel, row)?;
    let values = values_of(alloc, &net)?;
    Ok(value(values.as_slice(), test) == 1)
}

/// A digit for whether the retirement agrees, and `?` where a monitor of the row says another thing.
fn agreement_digit(alloc: Global, case: &Case) -> Result<char, Memory> {
    let agrees = agreement_shows(alloc, case)?;
    if let Row::Zb(row) = case.row {
        if monitor_shows(alloc, row, &case.retire)? == agrees {
            return Ok('?');
        }
    }
    Ok(if agrees { '1' } else { '0' })
}

/// The retirement that does what the effect says, and those that differ from it in one number.
fn retirements(retire: &Retire, effect: &Effect) -> [Retire; 11] {
    let good = Retire {
        rs1_addr: effect.rs1_addr,
        rs2_addr: effect.rs2_addr,
        rd_addr: effect.rd_addr,
        rd_wdata: effect.rd_wdata,
        pc_wdata: effect.pc_wdata,
        mem_addr: effect.mem_addr,
        mem_rmask: effect.rmask,
        mem_wmask: effect.wmask,
        mem_wdata: effect.wdata,
        trap: effect.trap,
        ..*retire
    };
    [
        good,
        Retire {
            rs1_addr: good.rs1_addr ^ 1,
            ..good
        },
        Retire {
            rs2_addr: good.rs2_addr ^ 1,
            ..good
        },
        Retire {
            rd_addr: good.rd_addr ^ 1,
            ..good
        },
        Retire {
            rd_wdata: good.rd_wdata ^ 1,
            ..good
        },
        Retire {
            pc_wdata: good.pc_wdata ^ 2,
            ..good
        },
        Retire {
            mem_addr: good.mem_addr ^ 4,
            ..good
        },
        Retire {
            mem_rmask: good.mem_rmask ^ 1,
            ..good
        },
        Retire {
            mem_wmask: good.mem_wmask ^ 4,
            ..good
        },
        Retire {
            mem_wdata: good.mem_wdata ^ 0x100,
            ..good
        },
        Retire {
            trap: !good.trap,
            ..good
        },
    ]
}

/// Whether the effect is the one that the table has.
fn is_tabled(case: &Case, effect: &Effect) -> bool {
    let insn = case.retire.insn;
    match case.row {
        Row::Base(row) => {
            matches(row, insn) && *effect == effect_of(row, &case.retire, case.opts)
        }
        Row::Zb(row) => {
            zb_row_of(insn) == Some(row)
                && row.matches(insn)
                && *effect == zb_effect(row, &case.retire)
        }
    }
}

/// The numbers of an effect in hexadecimal.
fn line(alloc: Global, effect: &Effect) -> Result<String, Memory> {
    let numbers = [
        effect.rs1_addr,
        effect.rs2_addr,
        effect.rd_addr,
        effect.rd_wdata,
        effect.pc_wdata,
        effect.mem_addr,
        effect.rmask,
        effect.wmask,
        effect.wdata,
        u32::from(effect.trap),
    ];
    let mut line = String::new(alloc);
    for number in numbers {
        let shown = format!(in alloc; "{number:x} ")?;
        line.push_str(shown.as_str())?;
    }
    Ok(line)
}

/// What the case's circuit shows, a digit for each of the retirements, 1 where it agrees, and one for the effect
/// itself, 1 where it is the table's.
pub(crate) fn shown(alloc: Global, case: &Case) -> Result<String, Memory> {
    let Some(effect) = circuit_shows(alloc, case)? else {
        return Ok(format!(in alloc; "no hit")?);
    };
    let mut line = line(alloc, &effect)?;
    for retire in retirements(&case.retire, &effect) {
        line.push(agreement_digit(alloc, &Case { retire, ..*case })?)?;
    }
    line.push_str(if is_tabled(case, &effect) { " 1" } else { " 0" })?;
    Ok(line)
}
