//! A law of lawful designs.
ghost use Rattle.std.specs.Prelude.{List};
ghost use Rattle.vl_mean.specs.FlatLaw.{IsDriver};
ghost use Rattle.vl_mean.specs.declared.driver.DriverKind.{DriverKind};
ghost use Rattle.vl_size.specs.declared.decl.Decl.{Decl};
ghost use Rattle.vl_flow_cells.specs.Sized.{DriverIsSized};

/// In each driver of a lawful design each name is declared, and its selects have a size.
#[tactic(auto, using(crate::proofs::Sizing::driver_sized))]
pub fn drivers_are_sized()
    ensures { (ds : List Decl) (x : DriverKind) → IsDriver ds x → DriverIsSized ds x }
{}
