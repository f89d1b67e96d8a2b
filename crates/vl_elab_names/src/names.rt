//! The names of a scope.
ghost use Rattle.std.specs.Prelude.{◌≡◌, ◌++◌, map, length, IfOk};
ghost use Rattle.vl_tree.specs.Item.{items};
ghost use Rattle.vl_mean.specs.Declarations.{all_names, header_parameters};
ghost use Rattle.vl_mean.specs.Walk.{parameter_names};
ghost use Rattle.vl_elab_names.specs.Known.{AreNames};

use crate::scope_names_labels::{add_decls, add_header, add_items};
use crate::set::NameSet;
use fv_text::{List, Memory, Text};
use std::alloc::Global;
use std::marker::Model;
use vl_size::Decl;
use vl_tree::{HeaderParameter, Item};

/// Names in order, found through a set.
#[derive(Drop)]
pub struct ScopeNames {
    all: List<Text>,
    set: NameSet,
}

impl Model for ScopeNames {
    ghost use Rattle.std.specs.Prelude.{ℕ, List};
    ghost use Rattle.vl_elab_names.specs.Known.{AreNames};

    ghost Value = { List (List ℕ) };

    ghost view = { λ s. s.all };

    ghost invariant = { λ s. AreNames s.set s.all };
}

fn set_of(alloc: Global, all: &[Text]) -> Result<NameSet, Memory>
    ensures { IfOk result (λ set. AreNames set all.now) }
{
    let mut set = NameSet::new(alloc);
    let mut place = all.len();
    while place > 0 {
        place -= 1;
        set.add(all[place].copied(alloc)?)?;
    }
    Ok(set)
}

fn found(alloc: Global, all: List<Text>) -> Result<ScopeNames, Memory>
    ensures { IfOk result (λ names. names ≡ all) }
{
    let set = set_of(alloc, all.as_slice())?;
    Ok(ScopeNames { all, set })
}

impl ScopeNames {
    /// Those that the items of a block declare.
    pub fn of_items(alloc: Global, all: &[Item]) -> Result<ScopeNames, Memory>
        ensures { IfOk result (λ names. names ≡ all_names (items all.now)) }
    {
        let mut names = List::new(alloc);
        add_items(alloc, all, &mut names)?;
        found(alloc, names)
    }

    /// Those that a module declares: the parameters of its head, its ports, which declare these nets and variables, and
    /// what its items declare.
    pub fn of_module(
        alloc: Global,
        header: &[HeaderParameter],
        ports: &[Decl],
        all: &[Item],
    ) -> Result<ScopeNames, Memory>
        ensures { IfOk result (λ names. names ≡ parameter_names (header_parameters header.now)
            ++ map (λ d. d.name) ports.now ++ all_names (items all.now)) }
    {
        let mut names = List::new(alloc);
        add_header(alloc, header, &mut names)?;
        add_decls(alloc, ports, &mut names)?;
        add_items(alloc, all, &mut names)?;
        found(alloc, names)
    }

    /// The same names as a set.
    pub fn set(&self) -> &NameSet
        ensures { AreNames result.now self.now }
    {
        &self.set
    }

    /// How many declarations of the scope have a name.
    pub fn len(&self) -> usize
        ensures { result ≡ length self.now }
    {
        self.all.len()
    }
}
