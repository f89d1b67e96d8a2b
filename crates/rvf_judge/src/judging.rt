//! The judgement of a question.

ghost use Rattle.std.specs.Prelude.{ℕ, ◌+◌, ◌<◌, ◌≤◌, List, length, map, sum, IfOk};
ghost use Rattle.vl_mean.specs.Parts.{Part};
ghost use Rattle.wn_net.specs.Names.{AreNamesOf};
ghost use Rattle.vl_lower_spec.specs.Graphic.{AreGraphic};
ghost use Rattle.rvfi_port.specs.declared.port.Wants.{Wants};
ghost use Rattle.rvfi_port.specs.Ports.{ArePortNodes};
ghost use Rattle.ck_ask.specs.Asked.{HasItsProbe, IsQuestion};
ghost use Rattle.ck_design.specs.Loaded.{IsLoaded};
ghost use Rattle.ck_design.specs.Traces.{HaveOwnNames};
ghost use Rattle.rvf_judge.specs.Judged.{IsJudged};

use crate::dump::dump_of;
use crate::judged::Judged;
use crate::texts::texts_of;
use bm_decide::{Search, Verdict, decide};
use ck_ask::Question;
use fv_text::Memory;
use rv_table::Opts;
use rvfi_port::Port;
use std::alloc::Global;
use wn_net::{Names, Net};

/// What a question of the design of a net comes to, by a search within a budget of learnt clauses.
///
/// Where no run gives what is sought, and where the budget is spent, it has the texts of a certificate, else a dump.
/// All is said of the design that the net is loaded from.
#[tactic(auto, using(crate::proofs::Told::few_channels))]
pub fn judge<S: Search>(
    alloc: Global,
    search: &S,
    net: &Net,
    names: &Names,
    port: &Port,
    question: &Question,
    opts: Opts,
    budget: u64,
) -> Result<Judged, Memory>
    requires can { S.can_find search.now }
    requires names { AreNamesOf net.now names.now }
    requires graphic { AreGraphic names.now }
    requires port { ArePortNodes net.now port.now }
    requires question { IsQuestion (length port.now.channels) question.now }
    requires few { length port.now.channels ≤ 2 }
    requires probe { HasItsProbe port.now question.now }
    requires inputs { length net.now.inputs ≤ 1000000 }
    requires state { length net.now.regs + sum (map (λ m. m.words) net.now.mems) ≤ 50000000 }
    requires budget { 0 < budget }
    ensures { (ps : List Part) (channels : ℕ) (wants : Wants)
        → IsLoaded ps net.now names.now channels wants port.now → HaveOwnNames ps
        → IfOk result (IsJudged (S.more search.now) ps channels wants question.now opts budget) }
{
    let _ = net.nodes();
    let verdict = decide(alloc, search, net, port, question, opts, budget)?;
    match verdict {
        Verdict::Never(certificate) => {
            let texts = texts_of(alloc, names, question, &certificate)?;
            Ok(Judged::Never(texts))
        }
        Verdict::Once(witness) => {
            let dump = dump_of(alloc, net, names, question, &witness)?;
            Ok(Judged::Found(dump))
        }
        Verdict::Spent(certificate) => {
            let texts = texts_of(alloc, names, question, &certificate)?;
            Ok(Judged::Spent(texts))
        }
    }
}
