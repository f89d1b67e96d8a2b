//! How a walk goes through items, blocks and modules.
ghost use Rattle.std.specs.Prelude.{◌≡◌, ◌+◌, ◌∷◌, ◌++◌, [], ℕ, suc, List, Some, None};
ghost use Rattle.vl_tree.specs.declared.source.Module.{Module};
ghost use Rattle.vl_tree.specs.Item as tree;
ghost use Rattle.vl_mean.specs.Declarations.{block_name, label_of};
ghost use Rattle.vl_mean.specs.Walk.{Place, Step, Unfolding, Use, Valued, block_path, block_place, block_walk};
ghost use Rattle.vl_mean.specs.Walk.{item, block_step, item_walk, items_walk, module_place, module_walk, turn_walk};
ghost use Rattle.vl_elab_spec.specs.Refused.{Totals};
ghost use Rattle.vl_elab_spec.specs.declared.totals.Totals as kept;
ghost use Rattle.vl_elab_spec.specs.Walked.{AreWalked};
ghost use Rattle.vl_elab_spec.specs.Within as within;

/// An item's own step comes first, and then those within it.
pub fn an_item_comes_before_what_is_in_it()
    ensures { (valued : Valued) (ms : List Module) (inner : Unfolding) (x : tree.Item) (at : Place) (n : ℕ)
        → (item at x ∷ []) ++ within.inner_walk valued ms inner x at n ≡ item_walk valued ms inner x at n }
{}

/// The steps of a block are its own and those of its items, in a scope of its own but for a directly nested `if`.
pub fn blocks_are_walked_by_their_items()
    ensures turn { (valued : Valued) (ms : List Module) (inner : Unfolding) (b : tree.Block) (at : Place) (path : List ℕ)
        → (block_step at b ∷ []) ++ items_walk valued ms inner (within.block_items b)
        (block_place at path (within.block_items b)) 1 ≡ turn_walk valued ms inner b at path }
    ensures scope { (valued : Valued) (ms : List Module) (inner : Unfolding) (b : tree.Block) (at : Place) (n : ℕ)
        → within.nested_if b ≡ None → (block_step at b ∷ []) ++ items_walk valued ms inner (within.block_items b)
        (block_place at (block_path at (block_name at.names n (label_of b))) (within.block_items b)) 1
        ≡ block_walk valued ms inner b at n }
    ensures nested { (valued : Valued) (ms : List Module) (inner : Unfolding) (b : tree.Block) (x : tree.Item) (at : Place) (n : ℕ)
        → within.nested_if b ≡ Some x
        → (block_step at b ∷ []) ++ item_walk valued ms inner x at n ≡ block_walk valued ms inner b at n }
{}

/// Modules are unfolded one level deeper than those in them, the steps of a module behind those of its instance.
pub fn modules_are_unfolded_behind_their_instances()
    ensures { (valued : Valued) (ms : List Module) (n : ℕ) (m : Module) (u : Use) (path : List ℕ) (modules : List (List ℕ))
        (front : List Step)
        → front ++ within.opened_walk valued ms (module_walk valued n ms) (module_place m u path modules) m u
        ≡ module_walk valued (suc n) ms m u path modules front }
{}

/// An instance whose own step isn't refused stands in none of the modules around it.
pub fn instances_that_pass_are_not_recursive()
    ensures { (ms : List Module) (t : Totals) (new : kept.Totals) (at : Place) (x : tree.Item)
        → AreWalked ms t new (item at x ∷ []) None → within.IsNotRecursive x at }
{}
