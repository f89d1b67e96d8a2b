//! Parameters of a scope and of the scopes around, as far as the walk has come.
ghost use Rattle.std.specs.Prelude.{◌≡◌, ◌∷◌, ◌++◌, [], ℕ, List, IfOk, OnOk};
ghost use Rattle.vl_tree.specs.Item.{items};
ghost use Rattle.vl_mean.specs.Declarations.{header_parameters, names_of};
ghost use Rattle.vl_mean.specs.Walk.{Place, parameter_names};
ghost use Rattle.vl_elab_spec.specs.Meanings as meanings;
ghost use Rattle.vl_elab_spec.specs.Meanings.{meanings_at, parameters_of};
ghost use Rattle.vl_elab_scope.specs.Alike.{Alike};
ghost use Rattle.vl_elab_scope.specs.Seen.{AllNamed};
ghost use Rattle.vl_elab_params.specs.declared.reached.Reached.{Reached};
ghost use Rattle.vl_elab_params.specs.Reached as spec;

use crate::names::{pass_item, pass_name};
use crate::pending::all_pending;
use fv_text::{Memory, Text};
use std::alloc::Global;
use std::mem;
use vl_elab_scope::{Level, Names};
use vl_tree::{HeaderParameter, Item};

/// The parameters of a scope: all of them, and those that stand before a step of the walk with what they mean.
#[derive(Drop)]
pub struct Reached {
    pending: Level,
    passed: Level,
}

impl Reached {
    /// None stands before the first step. `parameters`: those of a module's head; `all`: the items of a module or a
    /// block.
    pub fn new(
        alloc: Global,
        parameters: &[HeaderParameter],
        all: &[Item],
    ) -> Result<Reached, Memory>
        ensures { IfOk result (λ reached. (at : Place) → spec.parameters_at at
            ≡ parameter_names (header_parameters parameters.now) ++ parameters_of (items all.now)
            → spec.IsReached reached at []) }
    {
        Ok(Reached {
            pending: all_pending(alloc, parameters, all)?,
            passed: Level::new(alloc),
        })
    }

    /// A name that stands before the next step, that of a parameter or another one. `names`: what names mean in the
    /// scope.
    pub fn pass(&mut self, alloc: Global, text: &Text, names: &Names) -> Result<(), Memory>
        ensures { OnOk result ((at : Place) (earlier : List (List ℕ)) → Alike names.now (meanings_at at)
            → spec.IsReached self.old at earlier → spec.IsReached self.new at (earlier ++ text.now ∷ [])) }
    {
        pass_name(alloc, text, &self.pending, names, &mut self.passed)
    }

    /// The same of all names that an item declares.
    pub fn pass_item(&mut self, alloc: Global, item: &Item, names: &Names) -> Result<(), Memory>
        ensures { OnOk result ((at : Place) (earlier : List (List ℕ)) → Alike names.now (meanings_at at)
            → spec.IsReached self.old at earlier → spec.IsReached self.new at (earlier ++ names_of item.now)) }
    {
        pass_item(alloc, item, &self.pending, names, &mut self.passed)
    }

    /// Gives what it says of the scope's parameters to what is said of those of the scopes around, till `take_back`.
    pub fn hand_over(&mut self, alloc: Global, around: &mut Names) -> Result<(), Memory>
        ensures names { OnOk result (around.new ≡ spec.over self.old around.old) }
        ensures before { OnOk result ((at : Place) (earlier : List (List ℕ)) → AllNamed (meanings_at at)
            → spec.IsReached self.old at earlier → spec.AreAround around.old at
            → spec.AreBefore around.new at earlier) }
    {
        around.enter(mem::replace(&mut self.pending, Level::new(alloc)))?;
        around.enter(mem::replace(&mut self.passed, Level::new(alloc)))
    }

    /// Takes it back from there.
    pub fn take_back(&mut self, alloc: Global, around: &mut Names)
        ensures { (reached : Reached) (outer : List meanings.Names) → around.old ≡ spec.over reached outer
            → (self.new ≡ reached) × (around.new ≡ outer) }
    {
        self.passed = around.take(alloc);
        self.pending = around.take(alloc);
    }
}
