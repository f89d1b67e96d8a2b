//! What the inputs of an instance stand for.
ghost use Rattle.std.specs.Prelude.{◌≡◌, ◌&&◌, ◌||◌, ℕ, List, Bool, false, bytes_eq, IfOk, OnOk};
ghost use Rattle.vl_mean.specs.Scopes.{Scope};
ghost use Rattle.vl_mean.specs.Walk.{use_of};
ghost use Rattle.vl_tree.specs.Expr.{Expr};
ghost use Rattle.vl_tree.specs.declared.part.Instance.{Instance as SpecInstance};
ghost use Rattle.vl_elab_spec.specs.Meanings as meanings;
ghost use Rattle.vl_elab_names.specs.Known.{contains};
ghost use Rattle.vl_elab_decls.specs.Inputs.{AreInputs};
ghost use Rattle.vl_elab_decls.specs.Stands.{Stands};
ghost use Rattle.vl_elab_check_instance.specs.Clock as spec;

use crate::clock::is_clock;
use fv_text::{Memory, Text};
use std::alloc::Global;
use vl_elab_decls::Inputs;
use vl_elab_names::NameSet;
use vl_elab_scope::Names;
use vl_tree::Connection;

fn add_if(alloc: Global, test: bool, text: &Text, joined: &mut NameSet) -> Result<(), Memory>
    ensures { OnOk result ((other : List ℕ)
        → contains joined.new other ≡ ((bytes_eq other text.now && test) || contains joined.old other)) }
{
    if !test {
        return Ok(());
    }
    joined.add(text.copied(alloc)?)
}

/// Adds the port `text` of a connection to those that are joined; of two connections to one port the first counts.
/// `test`: whether its value is the clock; `seen`: the ports of the connections before it; `joined`: those of them that
/// are joined to the clock.
pub fn add_connection(
    alloc: Global,
    text: &Text,
    test: bool,
    seen: &mut NameSet,
    joined: &mut NameSet,
) -> Result<(), Memory>
    ensures seen { OnOk result ((other : List ℕ)
        → contains seen.new other ≡ spec.with_name (contains seen.old) text.now other) }
    ensures joined { OnOk result ((other : List ℕ) → contains joined.new other
        ≡ spec.with_clock test text.now (contains seen.old) (contains joined.old) other) }
{
    let first = !seen.contains(text) && test;
    seen.add(text.copied(alloc)?)?;
    add_if(alloc, first, text, joined)
}

fn all_joined(
    alloc: Global,
    all: &[Connection],
    numbers: &Names,
    clocks: &NameSet,
) -> Result<NameSet, Memory>
    ensures { IfOk result (λ set. (other : List ℕ) → contains set other
        ≡ spec.joined_to (spec.is_clock (contains clocks.now) numbers.now) all.now (λ text. false) (λ text. false)
        other) }
{
    let mut seen = NameSet::new(alloc);
    let mut joined = NameSet::new(alloc);
    for given in all {
        let test = is_clock(&given.value, numbers, clocks);
        add_connection(alloc, &given.port, test, &mut seen, &mut joined)?;
    }
    Ok(joined)
}

/// What the inputs of an instance with these connections stand for. `numbers`: the numbers of constants where it
/// stands; `clocks`: the inputs of the module around that are the clock.
pub fn joined_inputs(
    alloc: Global,
    all: &[Connection],
    numbers: &Names,
    clocks: &NameSet,
) -> Result<Inputs, Memory>
    ensures { IfOk result (λ inputs. (names known : List meanings.Names) (ss : List Scope) (x : SpecInstance)
        (has_value : Expr → Bool)
        → Stands names numbers.now (contains clocks.now) known ss → x.connections ≡ all.now
        → AreInputs inputs (use_of has_value ss x)) }
{
    Ok(Inputs::Joined(all_joined(alloc, all, numbers, clocks)?))
}
