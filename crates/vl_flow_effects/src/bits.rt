ghost use Rattle.std.specs.Prelude.{◌≡◌, ◌||◌, IfOk, ℕ, List};
ghost use Rattle.fv_bit_sets.specs.Cells.{has};
ghost use Rattle.vl_mean.specs.FlatLaw.{flat_scopes};
ghost use Rattle.vl_mean.specs.Targets.{may_change};
ghost use Rattle.vl_flow_spec.specs.Paths as paths;
ghost use Rattle.vl_flow_spec.specs.Reads.{reads};
ghost use Rattle.vl_flow_cells.specs.Numbered.{Shows};
ghost use Rattle.vl_flow_cells.specs.Numbering.{IsNumberingOf};
ghost use Rattle.vl_flow_cells.specs.Sized.{IsSized, LabelsAreSized, TargetIsSized};

use fv_bit_sets::Bits;
use fv_text::Memory;
use std::alloc::Global;
use vl_flow_cells::{
    Numbering, bits_of, expr_reads, labels_read, target_changes, target_reads, target_sets,
};
use vl_size::Decls;
use vl_tree::{Expr, Lval};

/// The bits that an expression reads.
pub(crate) fn reads_of(
    alloc: Global,
    expr: &Expr,
    decls: &Decls,
    numbering: &Numbering,
) -> Result<Bits, Memory>
    requires { IsNumberingOf decls.now numbering.now }
    ensures { IfOk result (λ bits. IsSized decls.now expr.now
        → Shows decls.now (has bits) (reads decls.now expr.now)) }
{
    let mut runs = Vec::new(alloc);
    expr_reads(expr, decls, numbering, &mut runs)?;
    Ok(bits_of(alloc, runs.as_slice())?)
}

/// Those that labels read.
pub(crate) fn label_bits(
    alloc: Global,
    labels: &[Expr],
    decls: &Decls,
    numbering: &Numbering,
) -> Result<Bits, Memory>
    requires { IsNumberingOf decls.now numbering.now }
    ensures { IfOk result (λ bits. LabelsAreSized decls.now labels.now
        → Shows decls.now (has bits) (paths.labels_read decls.now labels.now)) }
{
    let mut runs = Vec::new(alloc);
    labels_read(labels, decls, numbering, &mut runs)?;
    Ok(bits_of(alloc, runs.as_slice())?)
}

/// Those that an assignment reads: the target's indices, and the expression.
pub(crate) fn assign_reads(
    alloc: Global,
    target: &Lval,
    expr: &Expr,
    decls: &Decls,
    numbering: &Numbering,
) -> Result<Bits, Memory>
    requires { IsNumberingOf decls.now numbering.now }
    ensures { IfOk result (λ bits. TargetIsSized decls.now target.now → IsSized decls.now expr.now
        → Shows decls.now (has bits)
        (λ n i. paths.target_reads decls.now target.now n i || reads decls.now expr.now n i)) }
{
    let mut runs = Vec::new(alloc);
    target_reads(target, decls, numbering, &mut runs)?;
    expr_reads(expr, decls, numbering, &mut runs)?;
    Ok(bits_of(alloc, runs.as_slice())?)
}

/// The bits that an assignment to the target may change.
pub fn changes_of(
    alloc: Global,
    target: &Lval,
    decls: &Decls,
    numbering: &Numbering,
) -> Result<Bits, Memory>
    requires { IsNumberingOf decls.now numbering.now }
    ensures { IfOk result (λ bits. TargetIsSized decls.now target.now
        → Shows decls.now (has bits) (may_change (flat_scopes decls.now) target.now)) }
{
    let mut runs = Vec::new(alloc);
    target_changes(target, decls, numbering, &mut runs)?;
    Ok(bits_of(alloc, runs.as_slice())?)
}

/// Those that it surely changes.
pub(crate) fn sets_of(
    alloc: Global,
    target: &Lval,
    decls: &Decls,
    numbering: &Numbering,
) -> Result<Bits, Memory>
    requires { IsNumberingOf decls.now numbering.now }
    ensures { IfOk result (λ bits. TargetIsSized decls.now target.now
        → Shows decls.now (has bits) (paths.sets decls.now target.now)) }
{
    let mut runs = Vec::new(alloc);
    target_sets(target, decls, numbering, &mut runs)?;
    Ok(bits_of(alloc, runs.as_slice())?)
}
