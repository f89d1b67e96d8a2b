ghost use Rattle.std.specs.Prelude.{◌≡◌, OnOk};
ghost use Rattle.vl_mean.specs.FlatLaw.{flat_scopes};
ghost use Rattle.vl_mean.specs.Targets.{may_change};
ghost use Rattle.vl_flow_spec.specs.Paths as spec;
ghost use Rattle.vl_flow_cells.specs.Numbered.{Adds};
ghost use Rattle.vl_flow_cells.specs.Numbering.{IsNumberingOf};
ghost use Rattle.vl_flow_cells.specs.Sized.{TargetIsSized};

use crate::cell_run::CellRun;
use crate::fixed::are_fixed;
use crate::numbering::Numbering;
use crate::reads::selects_read;
use crate::runs::put;
use fv_text::Memory;
use vl_size::Decls;
use vl_tree::{Lval, LvalKind};

/// Puts the bits that the indices of a target read behind the others.
#[cycle(indices)]
#[tactic(auto, using(vl_tree::specs::LvalFalls::parts_fall))]
pub fn target_reads(
    target: &Lval,
    decls: &Decls,
    numbering: &Numbering,
    into: &mut Vec<CellRun>,
) -> Result<(), Memory>
    requires { IsNumberingOf decls.now numbering.now }
    ensures { OnOk result (TargetIsSized decls.now target.now
        → Adds decls.now into.old.items into.new.items (spec.target_reads decls.now target.now)) }
{
    match &target.kind {
        LvalKind::Name(_, all) => {
            selects_read(all.as_slice(), decls, numbering, into)?;
            Ok(())
        }
        LvalKind::Concat(parts) => {
            for part in parts.as_slice() {
                target_reads(part, decls, numbering, into)?;
            }
            Ok(())
        }
    }
}

/// The bits that an assignment to the target may change.
#[cycle(changes)]
#[tactic(auto, using(vl_tree::specs::LvalFalls::parts_fall))]
pub fn target_changes(
    target: &Lval,
    decls: &Decls,
    numbering: &Numbering,
    into: &mut Vec<CellRun>,
) -> Result<(), Memory>
    requires { IsNumberingOf decls.now numbering.now }
    ensures { OnOk result (TargetIsSized decls.now target.now
        → Adds decls.now into.old.items into.new.items (may_change (flat_scopes decls.now) target.now)) }
{
    match &target.kind {
        LvalKind::Name(text, all) => {
            put(into, numbering.taken(decls, text, all.as_slice()))?;
            Ok(())
        }
        LvalKind::Concat(parts) => {
            for part in parts.as_slice() {
                target_changes(part, decls, numbering, into)?;
            }
            Ok(())
        }
    }
}

/// The bits that an assignment to the target surely changes: those of constant selects.
#[cycle(sets)]
#[tactic(auto, using(vl_tree::specs::LvalFalls::parts_fall))]
pub fn target_sets(
    target: &Lval,
    decls: &Decls,
    numbering: &Numbering,
    into: &mut Vec<CellRun>,
) -> Result<(), Memory>
    requires { IsNumberingOf decls.now numbering.now }
    ensures { OnOk result (TargetIsSized decls.now target.now
        → Adds decls.now into.old.items into.new.items (spec.sets decls.now target.now)) }
{
    match &target.kind {
        LvalKind::Name(text, all) => {
            if are_fixed(all.as_slice()) {
                put(into, numbering.taken(decls, text, all.as_slice()))?;
            }
            Ok(())
        }
        LvalKind::Concat(parts) => {
            for part in parts.as_slice() {
                target_sets(part, decls, numbering, into)?;
            }
            Ok(())
        }
    }
}
