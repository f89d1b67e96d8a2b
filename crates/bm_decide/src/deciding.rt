//! The verdict on a question.
ghost use Rattle.std.specs.Prelude.{◌≡◌, ◌+◌, ◌<◌, ◌≤◌, length, map, sum, IfOk};
ghost use Rattle.rvfi_port.specs.Channels.{nodes_of};
ghost use Rattle.rvfi_port.specs.Ports.{ArePortNodes};
ghost use Rattle.ck_ask.specs.Asked.{HasItsProbe, IsQuestion};
ghost use Rattle.bm_decide.specs.Verdicts.{IsVerdict};

use crate::runs::clauses_of_runs;
use crate::search::Search;
use crate::settling::settle;
use crate::verdict::Verdict;
use ck_ask::{Question, ask};
use fv_text::Memory;
use rv_table::Opts;
use rvfi_port::{Channel, Port};
use std::alloc::Global;
use wn_net::{Net, NodeId};

/// The nodes of a channel, in the order of its fields.
fn nodes_of(c: &Channel) -> [NodeId; 19]
    ensures { result ≡ nodes_of c.now }
{
    [
        c.valid,
        c.order,
        c.insn,
        c.trap,
        c.halt,
        c.intr,
        c.rs1_addr,
        c.rs2_addr,
        c.rs1_rdata,
        c.rs2_rdata,
        c.rd_addr,
        c.rd_wdata,
        c.pc_rdata,
        c.pc_wdata,
        c.mem_addr,
        c.mem_rmask,
        c.mem_wmask,
        c.mem_rdata,
        c.mem_wdata,
    ]
}

/// The verdict on a question of a net's runs, by a search within a budget of learnt clauses.
pub fn decide<S: Search>(
    alloc: Global,
    search: &S,
    net: &Net,
    port: &Port,
    question: &Question,
    opts: Opts,
    budget: u64,
) -> Result<Verdict, Memory>
    requires can { S.can_find search.now }
    requires port { ArePortNodes net.now port.now }
    requires question { IsQuestion (length port.now.channels) question.now }
    requires few { length port.now.channels ≤ 2 }
    requires probe { HasItsProbe port.now question.now }
    requires inputs { length net.now.inputs ≤ 1000000 }
    requires state { length net.now.regs + sum (map (λ m. m.words) net.now.mems) ≤ 50000000 }
    requires budget { 0 < budget }
    ensures { IfOk result (IsVerdict (S.more search.now budget) net.now port.now question.now opts budget) }
{
    let _ = net.nodes();
    let mut watched = net.copy()?;
    let bad = ask(alloc, &mut watched, port, question, opts)?;
    let _ = watched.nodes();
    let channels = port.channels.as_slice();
    let own = &channels[question.channel() as usize];
    let fields = nodes_of(own);
    let clauses = clauses_of_runs(alloc, &watched, bad, &fields, question.cycle())?;
    settle(alloc, search, clauses, budget)
}
