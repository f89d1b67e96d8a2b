//! When a word matches a row.
#![tactic(auto, using(crate::proofs::RowLemmas::demanded))]

ghost use Rattle.std.specs.Prelude.{◌≡◌, ◌==◌, true, not, IfOk};
ghost use Rattle.std.specs.List.{list_all};
ghost use Rattle.fv_bits.specs.Bits.{bit};
ghost use Rattle.rv_table.specs.Matching as matching;
ghost use Rattle.rv_table.specs.Compressed.{meets};
ghost use Rattle.rv_table.specs.Fields as fields;
ghost use Rattle.rv_table.specs.declared.demand.Demand.TheVariants.{SomeOfSix};
ghost use Rattle.wn_net.specs.Net.{IsNodeOf, value_at};
ghost use Rattle.wn_net.specs.Changes.{AddsNodes, Shows};
ghost use Rattle.rv_words.specs.Demands as lawful;

use crate::constants::bit;
use crate::fields::field;
use crate::tests::{is_number, isnt_number};
use fv_text::Memory;
use rv_table::{Demand, RowId, demands};
use wn_net::{Net, NodeId};

/// 1 where the bits `high:low` of the word are the number.
fn is_field(net: &mut Net, word: NodeId, high: u32, low: u32, number: u32) -> Result<NodeId, Memory>
    requires word { IsNodeOf net.old 32 word }
    requires lawful { lawful.is_field high low number ≡ true }
    ensures adds { AddsNodes net.old net.new }
    ensures shows { IfOk result (Shows net.old net.new 1
        (λ g. bit (fields.field high low (value_at net.old g word) == number))) }
{
    let bits = field(net, word, high, low)?;
    let test = is_number(net, bits, high + 1 - low, number)?;
    Ok(test)
}

/// 1 where they are another number.
fn isnt_field(
    net: &mut Net,
    word: NodeId,
    high: u32,
    low: u32,
    number: u32,
) -> Result<NodeId, Memory>
    requires word { IsNodeOf net.old 32 word }
    requires lawful { lawful.is_field high low number ≡ true }
    ensures adds { AddsNodes net.old net.new }
    ensures shows { IfOk result (Shows net.old net.new 1
        (λ g. bit (not (fields.field high low (value_at net.old g word) == number)))) }
{
    let same = is_field(net, word, high, low, number)?;
    let test = net.not(same)?;
    Ok(test)
}

/// 1 where the bits 12 and 6:2 aren't all 0.
fn some_of_six(net: &mut Net, word: NodeId) -> Result<NodeId, Memory>
    requires { IsNodeOf net.old 32 word }
    ensures adds { AddsNodes net.old net.new }
    ensures shows { IfOk result (Shows net.old net.new 1
        (λ g. bit (meets (value_at net.old g word) SomeOfSix))) }
{
    let front = isnt_field(net, word, 12, 12, 0)?;
    let behind = isnt_field(net, word, 6, 2, 0)?;
    let test = net.or(front, behind)?;
    Ok(test)
}

/// 1 where the word does what is asked.
fn is_met(net: &mut Net, word: NodeId, demand: Demand) -> Result<NodeId, Memory>
    requires word { IsNodeOf net.old 32 word }
    requires lawful { lawful.is_lawful demand ≡ true }
    ensures adds { AddsNodes net.old net.new }
    ensures shows { IfOk result (Shows net.old net.new 1
        (λ g. bit (meets (value_at net.old g word) demand))) }
{
    match demand {
        Demand::Is(high, low, number) => is_field(net, word, high, low, number),
        Demand::Isnt(high, low, number) => isnt_field(net, word, high, low, number),
        Demand::SomeOfSix => some_of_six(net, word),
    }
}

/// 1 where the word does all that is asked.
fn are_met(net: &mut Net, word: NodeId, asked: &[Demand]) -> Result<NodeId, Memory>
    requires word { IsNodeOf net.old 32 word }
    requires lawful { list_all lawful.is_lawful asked.now ≡ true }
    ensures adds { AddsNodes net.old net.new }
    ensures shows { IfOk result (Shows net.old net.new 1
        (λ g. bit (list_all (meets (value_at net.old g word)) asked.now))) }
{
    let Some((first, rest)) = asked.split_first() else {
        return bit(net, true);
    };
    let met = is_met(net, word, *first)?;
    let others = are_met(net, word, rest)?;
    let test = net.and(met, others)?;
    Ok(test)
}

/// 1 where the word matches the row.
#[tactic(auto, using(crate::proofs::RowLemmas::lawful), unfolding(rv_table::specs::Matching::matches))]
pub fn hit(net: &mut Net, word: NodeId, row: RowId) -> Result<NodeId, Memory>
    requires { IsNodeOf net.old 32 word }
    ensures adds { AddsNodes net.old net.new }
    ensures shows { IfOk result (Shows net.old net.new 1
        (λ g. bit (matching.matches row (value_at net.old g word)))) }
{
    are_met(net, word, demands(row))
}
