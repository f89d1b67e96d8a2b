//! What a check of one cycle comes to by induction on the length of runs.

ghost use Rattle.std.specs.Prelude.{◌≡◌, ℕ, ◌+◌, ◌<◌, ◌≤◌, Bool, List, length, map, sum, IfOk};
ghost use Rattle.vl_mean.specs.Parts.{Part};
ghost use Rattle.vl_size.specs.Size.{Values};
ghost use Rattle.wn_net.specs.Net.{IsNodeOf};
ghost use Rattle.wn_net.specs.Names.{AreNamesOf};
ghost use Rattle.vl_lower_spec.specs.Graphic.{AreGraphic};
ghost use Rattle.rvfi_port.specs.declared.port.Wants.{Wants};
ghost use Rattle.rvfi_port.specs.Ports.{ArePortNodes};
ghost use Rattle.ck_cfg.specs.Lawful.{IsCheck};
ghost use Rattle.ck_gen.specs.Monitors.{HasProbe};
ghost use Rattle.bm_induct.specs.Halves.{IsStepChoice, IsWithinBy};
ghost use Rattle.bm_induct.specs.StepRuns.{IsBaseRun};
ghost use Rattle.bm_unroll.specs.Frames.{Chooses, IsChoice};
ghost use Rattle.bm_decide.specs.Chosen.{numbers_read};
ghost use Rattle.ck_design.specs.Loaded.{IsLoaded};
ghost use Rattle.ck_design.specs.Traces.{HaveOwnNames};
ghost use Rattle.ck_induct.specs.Laws.{TellsLack};
ghost use Rattle.ck_induct.specs.Verdicts.{AreBitsBy, IsNever, IsOnce};
ghost use Rattle.rvf_judge.specs.Inducted.{IsInducted, IsInductedOn};
ghost use Rattle.rvf_judge.specs.InductParts.{DumpsFailing, DumpsStepping};

use crate::induction::Induction;
use crate::texts::half_texts;
use bm_decide::{Certificate, Search, Verdict, Witness};
use ck_cfg::Check;
use ck_gen::monitor;
use ck_induct::{decide_base, decide_step, failing_trace, is_of_one_cycle, stepping_trace};
use fv_text::{Memory, Text};
use rv_table::Opts;
use rvfi_port::Port;
use std::alloc::Global;
use vcd_dump::vcd;
use wn_net::{Names, Net, NodeId};

/// The dump of the run that a witness of the base tells.
fn failing_dump(
    alloc: Global,
    net: &Net,
    names: &Names,
    bad: NodeId,
    k: u32,
    witness: &Witness,
) -> Result<Text, Memory>
    requires names { AreNamesOf net.now names.now }
    requires bad { IsNodeOf net.now 1 bad }
    requires some { 1 ≤ k }
    requires once { IsOnce net.now (IsChoice net.now k) (IsBaseRun net.now bad k) witness.now }
    ensures { IfOk result (DumpsFailing net.now names.now bad k) }
{
    let _ = net.nodes();
    let trace = failing_trace(alloc, net, names, bad, k, witness)?;
    let bytes = vcd(alloc, &trace)?;
    Ok(Text::from_vec(bytes))
}

/// The dump of the step run that a witness of the step tells.
fn stepping_dump(
    alloc: Global,
    net: &Net,
    names: &Names,
    k: u32,
    witness: &Witness,
) -> Result<Text, Memory>
    requires names { AreNamesOf net.now names.now }
    requires some { 1 ≤ k }
    requires few { k ≤ 100 }
    requires bits { AreBitsBy net.now (IsStepChoice net.now k) witness.now.bits }
    requires chooses { Chooses net.now witness.now.bits.sources (numbers_read witness.now) }
    ensures { IfOk result (DumpsStepping net.now names.now k witness.now) }
{
    let _ = net.nodes();
    let trace = stepping_trace(alloc, net, names, k, witness)?;
    let bytes = vcd(alloc, &trace)?;
    Ok(Text::from_vec(bytes))
}

/// What the step comes to, behind a base that is refuted.
fn stepped<S: Search>(
    alloc: Global,
    search: &S,
    net: &Net,
    names: &Names,
    bad: NodeId,
    k: u32,
    budget: u64,
    refuted: &Certificate,
) -> Result<Induction, Memory>
    requires can { S.can_find search.now }
    requires names { AreNamesOf net.now names.now }
    requires graphic { AreGraphic names.now }
    requires bad { IsNodeOf net.now 1 bad }
    requires within { IsWithinBy 1 net.now }
    requires some { 1 ≤ k }
    requires few { k ≤ 100 }
    requires budget { 0 < budget }
    requires refuted { IsNever net.now (IsChoice net.now k) (IsBaseRun net.now bad k) (S.more search.now budget)
        refuted.now }
    ensures { (ps : List Part) (has : Values → Bool) → TellsLack ps net.now names.now has bad → HaveOwnNames ps
        → IfOk result (IsInductedOn ps has k (S.more search.now) budget) }
{
    let _ = net.nodes();
    let verdict = decide_step(alloc, search, net, bad, k, budget)?;
    match verdict {
        Verdict::Never(certificate) => {
            let base = half_texts(alloc, names, refuted)?;
            let step = half_texts(alloc, names, &certificate)?;
            Ok(Induction::Proved { base, step })
        }
        Verdict::Once(witness) => {
            let dump = stepping_dump(alloc, net, names, k, &witness)?;
            Ok(Induction::Open(dump))
        }
        Verdict::Spent(certificate) => {
            let texts = half_texts(alloc, names, &certificate)?;
            Ok(Induction::SpentStep(texts))
        }
    }
}

/// What a node of a net comes to by induction: the base first, and the step where the base is refuted, each with the
/// whole budget.
fn inducted<S: Search>(
    alloc: Global,
    search: &S,
    net: &Net,
    names: &Names,
    bad: NodeId,
    k: u32,
    budget: u64,
) -> Result<Induction, Memory>
    requires can { S.can_find search.now }
    requires names { AreNamesOf net.now names.now }
    requires graphic { AreGraphic names.now }
    requires bad { IsNodeOf net.now 1 bad }
    requires within { IsWithinBy 3 net.now }
    requires some { 1 ≤ k }
    requires few { k ≤ 100 }
    requires budget { 0 < budget }
    ensures { (ps : List Part) (has : Values → Bool) → TellsLack ps net.now names.now has bad → HaveOwnNames ps
        → IfOk result (IsInductedOn ps has k (S.more search.now) budget) }
{
    let _ = net.nodes();
    let verdict = decide_base(alloc, search, net, bad, k, budget)?;
    match verdict {
        Verdict::Never(certificate) => {
            stepped(alloc, search, net, names, bad, k, budget, &certificate)
        }
        Verdict::Once(witness) => {
            let dump = failing_dump(alloc, net, names, bad, k, &witness)?;
            Ok(Induction::Fails(dump))
        }
        Verdict::Spent(certificate) => {
            let texts = half_texts(alloc, names, &certificate)?;
            Ok(Induction::SpentBase(texts))
        }
    }
}

/// What a check of the design of a net comes to by induction with `k` steps, by a search within a budget of learnt
/// clauses for each half. Where it looks at more than one cycle it is skipped.
///
/// All is said of the design that the net is loaded from.
pub fn induct<S: Search>(
    alloc: Global,
    search: &S,
    net: &Net,
    names: &Names,
    port: &Port,
    check: &Check,
    opts: Opts,
    k: u32,
    budget: u64,
) -> Result<Induction, Memory>
    requires can { S.can_find search.now }
    requires names { AreNamesOf net.now names.now }
    requires graphic { AreGraphic names.now }
    requires port { ArePortNodes net.now port.now }
    requires check { IsCheck (length port.now.channels) check.now }
    requires channels { length port.now.channels ≤ 2 }
    requires probe { HasProbe port.now check.now.kind }
    requires inputs { length net.now.inputs ≤ 1000000 }
    requires state { length net.now.regs + sum (map (λ m. m.words) net.now.mems) ≤ 50000000 }
    requires some { 1 ≤ k }
    requires few { k ≤ 100 }
    requires budget { 0 < budget }
    ensures { (ps : List Part) (channels : ℕ) (wants : Wants)
        → IsLoaded ps net.now names.now channels wants port.now → HaveOwnNames ps
        → IfOk result (IsInducted (S.more search.now) ps channels wants check.now opts k budget) }
{
    if !is_of_one_cycle(check.kind) {
        return Ok(Induction::Skipped);
    }
    let _ = net.nodes();
    let mut watched = net.copy()?;
    let bad = monitor(alloc, &mut watched, port, check, opts)?;
    let _ = watched.nodes();
    inducted(alloc, search, &watched, names, bad, k, budget)
}
