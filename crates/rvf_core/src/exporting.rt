//! `toaig CFG CHECK FILE`

ghost use Rattle.std.specs.Prelude.{◌≡◌, ℕ, List, Some, [], ◌∷◌, IfOk};
ghost use Rattle.ck_cfg.specs.declared.check.Check.{Check as SpecCheck};
ghost use Rattle.ck_ask.specs.declared.question.Question.TheVariants as question;
ghost use Rattle.rvf_case.specs.Cases.{IsReady};
ghost use Rattle.rvf_report.specs.Outcome.{outside};
ghost use Rattle.rvf_core.specs.Run.{Ends, HasCounts};
ghost use Rattle.rvf_core.specs.Steps.{HaveStatus, IsGraphReport};
ghost use Rattle.rvf_core.specs.Works.{line_seen};

use crate::encoding::with_file;
use crate::refusing::refused;
use crate::report::Report;
use crate::reporting::put_report;
use fv_base::{Files, Out};
use fv_text::Memory;
use rvf_case::{Asking, Case, Request, prepare};
use rvf_graph::graph_text;
use rvf_graph::graphs_law::graphs_are_the_sources;
use rvf_report::Status;
use std::alloc::Global;

/// What `toaig` asks for.
#[derive(Debug, Clone, Copy)]
pub(crate) struct ExportRequest<'a> {
    /// The file of the configuration.
    pub(crate) cfg: &'a [u8],
    /// The name of the check.
    pub(crate) check: &'a [u8],
    /// The file that the graph is written to.
    pub(crate) file: &'a [u8],
    /// The name of the core, which `@core@` stands for in the configuration.
    pub(crate) core: &'a [u8],
    /// The folder that `@basedir@` stands for in the configuration.
    pub(crate) basedir: &'a [u8],
}

/// The graph of a case's one question as the file of this name, and behind it the line of the graph.
fn exported(alloc: Global, case: &Case, file: &[u8]) -> Result<Report, Memory>
    requires ready { IsReady case.now }
    requires one { (x : SpecCheck) × (case.now.questions ≡ question.Check x ∷ []) }
    ensures { IfOk result (IsGraphReport case.now file.now) }
{
    let Some(question) = case.questions.get(0) else {
        unreachable!()
    };
    let Some(loaded) = case.loaded_for(question) else {
        unreachable!()
    };
    let made = graph_text(
        alloc,
        &loaded.net,
        &loaded.names,
        &loaded.port,
        question,
        loaded.opts,
    )?;
    with_file(alloc, file, made.text, made.inputs, made.gates)
}

/// Writes the graph of a check and puts its line; or says why it doesn't.
pub(crate) fn export<F: Files, O: Out>(
    alloc: Global,
    order: &ExportRequest<'_>,
    files: &mut F,
    out: &mut O,
) -> Status
    ensures ends { (asked : List (List ℕ)) → Ends (Some (line_seen order.now)) (record {
      words = asked;
      before = outside (F.state files.old) (O.state out.old);
      now = outside (F.state files.new) (O.state out.new);
    }) result }
    ensures statuses { (asked : List (List ℕ)) → HaveStatus (Some (line_seen order.now)) (record {
      words = asked;
      before = outside (F.state files.old) (O.state out.old);
      now = outside (F.state files.new) (O.state out.new);
    }) result }
    ensures counts { HasCounts result
        (outside (F.state files.old) (O.state out.old)) (outside (F.state files.new) (O.state out.new)) }
{
    graphs_are_the_sources();
    let request = Request {
        cfg: order.cfg,
        core: order.core,
        basedir: order.basedir,
        asking: Asking::One(order.check),
    };
    match prepare(alloc, request, files) {
        Ok(case) => put_report(alloc, exported(alloc, &case, order.file), files, out),
        Err(refusal) => put_report(alloc, refused(alloc, &refusal), files, out),
    }
}
