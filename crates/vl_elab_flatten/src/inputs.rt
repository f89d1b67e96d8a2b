//! What the inputs of an instance's module stand for.
ghost use Rattle.std.specs.Prelude.{◌≡◌, ℕ, List, false, IfOk};
ghost use Rattle.vl_tree.specs.declared.part.Instance.{Instance as SpecInstance};
ghost use Rattle.vl_mean.specs.Scopes as scopes_spec;
ghost use Rattle.vl_mean.specs.Walk.{has_any, use_of};
ghost use Rattle.vl_elab_names.specs.Known.{contains};
ghost use Rattle.vl_elab_decls.specs.Inputs.{AreInputs};
ghost use Rattle.vl_elab_check_instance.specs.Clock as spec;

use fv_text::Memory;
use std::alloc::Global;
use vl_elab_check_instance::add_connection;
use vl_elab_decls::Inputs;
use vl_elab_draft::Scopes;
use vl_elab_emit::is_clock;
use vl_elab_names::NameSet;
use vl_tree::{Connection, Expr};

fn is_clock_value(value: &Option<Expr>, scopes: &Scopes) -> bool
    ensures { result ≡ scopes_spec.is_clock scopes.now value.now }
{
    match value {
        None => false,
        Some(value) => is_clock(value, scopes),
    }
}

fn all_joined(alloc: Global, all: &[Connection], scopes: &Scopes) -> Result<NameSet, Memory>
    ensures { IfOk result (λ set. (other : List ℕ) → contains set other
        ≡ spec.joined_to (scopes_spec.is_clock scopes.now) all.now (λ text. false) (λ text. false) other) }
{
    let mut seen = NameSet::new(alloc);
    let mut joined = NameSet::new(alloc);
    for given in all {
        let test = is_clock_value(&given.value, scopes);
        add_connection(alloc, &given.port, test, &mut seen, &mut joined)?;
    }
    Ok(joined)
}

/// What the inputs of an instance's module stand for: one that is joined to the clock is the clock (IEEE 1364-2005,
/// section 12.3.6). `all`: what the instance joins to ports; of two connections to one port the first counts.
pub(crate) fn joined_inputs(
    alloc: Global,
    all: &[Connection],
    scopes: &Scopes,
) -> Result<Inputs, Memory>
    ensures { IfOk result (λ inputs. (x : SpecInstance) → x.connections ≡ all.now
        → AreInputs inputs (use_of has_any scopes.now x)) }
{
    Ok(Inputs::Joined(all_joined(alloc, all, scopes)?))
}
