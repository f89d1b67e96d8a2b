//! That no two names of a trace have one text.
ghost use Rattle.std.specs.Prelude.{List, All};
ghost use Rattle.vl_size.specs.declared.decl.Decl.{Decl};
ghost use Rattle.vl_size.specs.Table.{AreApart, AreDifferent};
ghost use Rattle.vl_mean.specs.declared.driver.Driver.{Driver};
ghost use Rattle.vl_mean.specs.declared.driver.Start.{Start};
ghost use Rattle.vl_mean.specs.FlatLaw.{IsKept};
ghost use Rattle.vl_mean.specs.FlatParts.{parts_of};
ghost use Rattle.ck_design.specs.Traces.{HaveOwnNames};

/// Where declared names differ, and none of them is that of a memory's word, no two names of a trace have one text.
#[tactic(auto, using(crate::proofs::Own::own_names))]
pub fn names_of_traces_differ()
    ensures { (ds : List Decl) (drivers : List Driver) (starts : List Start) → AreDifferent ds → AreApart ds
        → All IsKept ds → HaveOwnNames (parts_of ds drivers starts) }
{}
