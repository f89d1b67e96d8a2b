//! Laws of what is read and assigned in a design without hierarchy.
ghost use Rattle.std.specs.Prelude.{◌≡◌, ℕ, Bool, List, All, IsSome, false};
ghost use Rattle.vl_mean.specs.Execution.{assigns};
ghost use Rattle.vl_mean.specs.FlatLaw.{flat_scopes, IsBlock};
ghost use Rattle.vl_mean.specs.Targets.{bit_of};
ghost use Rattle.vl_mean.specs.declared.driver.DriverKind.{DriverKind};
ghost use Rattle.vl_flow_spec.specs.Depends.{done, EndsAlike};
ghost use Rattle.vl_flow_spec.specs.Drivers.{driven_by_any, AreInOrder};
ghost use Rattle.vl_flow_spec.specs.Paths.{needs};
ghost use Rattle.vl_flow_spec.specs.Reads.{reads, AgreeOn, AreInRange};
ghost use Rattle.vl_flow_spec.specs.Settle.{settle, AreAccepted, AreMet, IsBitOf};
ghost use Rattle.vl_size.specs.Size.{cells_in, size, value, Values};
ghost use Rattle.vl_size.specs.Table.{AreApart, IsShaped};
ghost use Rattle.vl_size.specs.declared.decl.Decl.{Decl};
ghost use Rattle.vl_tree.specs.Expr.{Expr};
ghost use Rattle.vl_tree.specs.Stmt.{Stmt};

/// Maps that agree on the bits that an expression with a size reads give it one value in each context.
pub fn a_value_depends_on_what_is_read()
    ensures { (ds : List Decl) → All IsShaped ds → (e : Expr) → IsSome (size ds e) → (u v : Values)
        → AgreeOn ds (reads ds e) u v → (w : ℕ) (s : Bool)
        → value ds (cells_in u) w s e ≡ value ds (cells_in v) w s e }
{}

/// From maps that agree on the bits that a statement needs, it ends alike: what it surely assigns, what waits for the
/// block's end and what it assumes are the same.
#[tactic(auto, using(crate::proofs::Laws::block_depends))]
pub fn a_block_depends_on_what_it_needs()
    ensures { (ds : List Decl) → All IsShaped ds → AreApart ds → (s : Stmt) → IsBlock ds s → (u v : Values)
        → AreInRange ds u → AreInRange ds v → AgreeOn ds (needs ds s) u v → EndsAlike ds s u v }
{}

/// A bit that no assignment of a statement may change keeps its value.
#[tactic(auto, using(crate::proofs::Laws::block_keeps))]
pub fn a_block_keeps_what_it_does_not_assign()
    ensures { (ds : List Decl) → All IsShaped ds → (s : Stmt) → IsBlock ds s
        → (v : Values) (n : List ℕ) (k : ℕ)
        → assigns (flat_scopes ds) s n k ≡ false → bit_of ((done ds s v).now n) k ≡ bit_of (v n) k }
{}

/// What comes out of settling drivers in order has the bits that none drives as they were, and each driver leaves what
/// it drives as it is.
#[tactic(auto, using(crate::proofs::Settling::settling))]
pub fn settling_comes_to_a_map()
    ensures in_range { (ds : List Decl) → All IsShaped ds → AreApart ds → (xs : List DriverKind)
        → AreAccepted ds xs
        → (v : Values) → AreInRange ds v → AreInRange ds (settle ds xs v) }
    ensures keeps { (ds : List Decl) → All IsShaped ds → AreApart ds → (xs : List DriverKind)
        → AreAccepted ds xs
        → (v : Values) → AreInRange ds v → (n : List ℕ) (i : ℕ) → IsBitOf ds n i
        → driven_by_any ds xs n i ≡ false
        → bit_of (settle ds xs v n) i ≡ bit_of (v n) i }
    ensures met { (ds : List Decl) → All IsShaped ds → AreApart ds → (xs : List DriverKind) → AreAccepted ds xs
        → AreInOrder ds xs → (v : Values) → AreInRange ds v → AreMet ds (settle ds xs v) xs }
{}

/// Two maps that each of the drivers in order leaves, and that are one on the bits that none drives, are one.
#[tactic(auto, using(crate::proofs::Settling::one_map))]
pub fn one_map_is_left()
    ensures { (ds : List Decl) → All IsShaped ds → AreApart ds → (xs : List DriverKind) → AreAccepted ds xs
        → AreInOrder ds xs → (u v : Values) → AreInRange ds u → AreInRange ds v → AreMet ds u xs
        → AreMet ds v xs
        → ((n : List ℕ) (i : ℕ) → IsBitOf ds n i → driven_by_any ds xs n i ≡ false
        → bit_of (u n) i ≡ bit_of (v n) i)
        → (n : List ℕ) (i : ℕ) → IsBitOf ds n i → bit_of (u n) i ≡ bit_of (v n) i }
{}
