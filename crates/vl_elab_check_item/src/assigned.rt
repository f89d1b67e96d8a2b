//! Where continuous assignments, events and assignments to genvars are refused.
ghost use Rattle.std.specs.Prelude.{◌≡◌, List, IfOk};
ghost use Rattle.vl_elab_spec.specs.Items as items;
ghost use Rattle.vl_elab_spec.specs.Meanings as meanings;
ghost use Rattle.vl_elab_spec.specs.Refused.{lowest};
ghost use Rattle.vl_elab_check_item.specs.ItemParts as spec;
ghost use Rattle.vl_elab_scope.specs.Seen.{seen};

use fv_text::{Memory, Pos, Text};
use std::alloc::Global;
use vl_elab_check_expr::{clock_if, expr_fault_in, first_of, is_clock};
use vl_elab_check_stmt::{Assigning, assigned_in, assignment_fault};
use vl_elab_scope::{Meaning, Names};
use vl_elab_spec::ElabFault;
use vl_tree::{Assignment, Event, EventKind, Expr};

fn judge_assignments(
    alloc: Global,
    all: &[Assignment],
    names: &Names,
) -> Result<Option<ElabFault>, Memory>
    ensures { IfOk result (λ g. g ≡ spec.assignments_fault names.now all.now) }
{
    let how = Assigning {
        continuous: true,
        fixed_target: true,
        fixed_value: false,
    };
    let mut fault = None;
    let mut place = all.len();
    while place > 0 {
        place -= 1;
        let found = assignment_fault(alloc, &all[place].target, &all[place].value, how, names)?;
        fault = first_of(found, fault);
    }
    Ok(fault)
}

/// Of all refusals of continuous assignments the one with the lowest number, and of one number the one at the earliest
/// place. None exactly where none is refused.
#[tactic(auto, using(crate::proofs::Lists::same_assignments))]
pub fn assignments_fault(
    alloc: Global,
    all: &[Assignment],
    names: &Names,
) -> Result<Option<ElabFault>, Memory>
    ensures { IfOk result (λ g. g ≡ lowest (items.assignments_refusals names.now all.now)) }
{
    judge_assignments(alloc, all, names)
}

/// A declared name at whose edge a block acts.
fn edge_fault(
    alloc: Global,
    pos: Pos,
    text: &Text,
    meaning: &Meaning,
) -> Result<Option<ElabFault>, Memory>
    ensures { IfOk result (λ g. g ≡ lowest (items.edge_refusals pos text.now (seen meaning.now))) }
{
    match meaning {
        Meaning::LoopVariable => Ok(Some(ElabFault::Unknown(text.copied(alloc)?, pos))),
        Meaning::Faulty | Meaning::Shapeless => Ok(None),
        Meaning::Object(object) => Ok(clock_if(!is_clock(object.decl.class), pos)),
        Meaning::Constant(_, _) | Meaning::Later => Ok(Some(ElabFault::Clock(pos))),
    }
}

fn posedge_fault(
    alloc: Global,
    pos: Pos,
    text: &Text,
    names: &Names,
) -> Result<Option<ElabFault>, Memory>
    ensures { IfOk result (λ g. g ≡ lowest (items.edge_refusals pos text.now
        (meanings.meaning_in names.now text.now))) }
{
    match names.meaning(text) {
        None => Ok(Some(ElabFault::Unknown(text.copied(alloc)?, pos))),
        Some(meaning) => edge_fault(alloc, pos, text, meaning),
    }
}

/// Where a block's event is refused: it acts at the edge of the clock alone.
pub fn event_fault(alloc: Global, event: &Event, names: &Names) -> Result<Option<ElabFault>, Memory>
    ensures { IfOk result (λ g. g ≡ lowest (items.event_refusals names.now event.now.pos event.now.kind)) }
{
    match &event.kind {
        EventKind::Posedge(text) => posedge_fault(alloc, event.pos, text, names),
        EventKind::Bare | EventKind::Spaced | EventKind::OpenJoined | EventKind::CloseJoined => Ok(
            None,
        ),
    }
}

/// Where a value that is assigned to a genvar is refused. It is constant, and has 32 bits at least.
pub fn genvar_fault(alloc: Global, value: &Expr, names: &Names) -> Result<Option<ElabFault>, Memory>
    ensures { IfOk result (λ g. g ≡ lowest (items.genvar_refusals names.now value.now)) }
{
    let context = assigned_in(alloc, Some(32), value, names)?;
    expr_fault_in(alloc, value, true, context, names)
}
