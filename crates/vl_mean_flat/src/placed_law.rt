//! That parts of steps, their places and their scopes depend on what is there as a design is written.
ghost use Rattle.std.specs.Prelude.{◌≡◌, ℕ, List};
ghost use Rattle.vl_tree.specs.Item.{Item, Items};
ghost use Rattle.vl_tree.specs.declared.source.Module.{Module};
ghost use Rattle.vl_mean.specs.Parts.{parts_of_steps};
ghost use Rattle.vl_mean.specs.Walk.{Contents, Place, Step, item_steps, items_steps};
ghost use Rattle.vl_mean_flat.specs.DriverPlaces.{places_of_steps};
ghost use Rattle.vl_mean_flat.specs.Seen.{beside, inner, parts_of_seen, places_of_seen, seen_steps};

/// What scopes are made from, the names that are declared before an item and the modules that it stands in change
/// neither the parts of its steps, nor the places of the drivers among these, nor the scopes in which their names are
/// read.
pub fn parts_depend_on_what_is_there()
    ensures item { (ms : List Module) (depth : ℕ) (x : Item) (at : Place) (n : ℕ) (contents : List Contents)
        (earlier modules : List (List ℕ)) → seen_steps (item_steps ms (inner depth ms) x at n)
        ≡ seen_steps (item_steps ms (inner depth ms) x (beside at contents earlier modules) n) }
    ensures items { (ms : List Module) (depth : ℕ) (xs : Items) (at : Place) (n : ℕ) (contents : List Contents)
        (earlier modules : List (List ℕ)) → seen_steps (items_steps ms (inner depth ms) xs at n)
        ≡ seen_steps (items_steps ms (inner depth ms) xs (beside at contents earlier modules) n) }
    ensures parts { (xs : List Step) → parts_of_steps xs ≡ parts_of_seen (seen_steps xs) }
    ensures places { (xs : List Step) → places_of_steps xs ≡ places_of_seen (seen_steps xs) }
{}
