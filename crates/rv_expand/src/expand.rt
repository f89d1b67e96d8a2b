//! The word that a half word stands for.
#![tactic(auto, using(wn_net::proofs::Laws::additions))]

ghost use Rattle.std.specs.Prelude.{◌≡◌, true, IfOk};
ghost use Rattle.rv_table.specs.Assembled.{is_lawful};
ghost use Rattle.rv_table.specs.Effect as effect;
ghost use Rattle.rv_table.specs.Rows.{base_row};
ghost use Rattle.wn_net.specs.Net.{IsNodeOf, value_at};
ghost use Rattle.wn_net.specs.Changes.{AddsNodes, Shows};

use crate::assemble::assembled;
use crate::operands::operands;
use fv_text::Memory;
use rv_table::{BaseRow, CompressedRow, Pattern};
use wn_net::{Net, NodeId};

#[tactic(auto, using(rv_table::proofs::Lawful::lawful))]
fn lawful_pattern(row: BaseRow) -> Pattern
    ensures value { result ≡ (base_row row).pattern }
    ensures lawful { is_lawful result ≡ true }
{
    row.pattern()
}

/// The word that a half word of the row stands for, at the low half of a word.
#[tactic(auto, using(wn_net::proofs::Laws::additions), unfolding(rv_table::specs::Effect::expansion))]
pub fn expansion(net: &mut Net, row: CompressedRow, half: NodeId) -> Result<NodeId, Memory>
    requires { IsNodeOf net.old 32 half }
    ensures adds { AddsNodes net.old net.new }
    ensures shows { IfOk result (Shows net.old net.new 32
        (λ g. effect.expansion row (value_at net.old g half))) }
{
    let operands = operands(net, row, half)?;
    let word = assembled(net, lawful_pattern(row.base()), &operands)?;
    Ok(word)
}
