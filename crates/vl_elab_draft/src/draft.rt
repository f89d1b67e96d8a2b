//! What is written of a design without hierarchy.
ghost use Rattle.std.specs.Prelude.{◌≡◌, ◌++◌, ◌∷◌, [], false, OnOk, OnErr};
ghost use Rattle.vl_size.specs.Table.{is_declared, IsShaped};
ghost use Rattle.vl_mean.specs.FlatLaw.{IsLawful};
ghost use Rattle.vl_elab_draft.specs.Ends.{EndsPlain};
ghost use Rattle.vl_elab_draft.specs.Written as spec;

use fv_text::{List, Memory};
use std::alloc::Global;
use std::marker::Model;
use vl_mean::{Driver, Flat, Start};
use vl_size::{Decl, Decls};

/// The declarations, drivers and values at first of a design without hierarchy, as far as they are written. Names are
/// full names, and none ends with a bracket, as those of a memory's words do.
#[derive(Drop)]
pub struct Draft {
    decls: Decls,
    drivers: List<Driver>,
    starts: List<Start>,
}

impl Model for Draft {
    ghost use Rattle.std.specs.Prelude.{All};
    ghost use Rattle.vl_elab_draft.specs.Ends.{EndsPlain};
    ghost use Rattle.vl_elab_draft.specs.Written as spec;

    ghost Value = { spec.Written };

    ghost use Rattle.std.specs.Coded.{codes};
    ghost use Rattle.vl_size.specs.contracts.decl.Decl as decl;
    ghost use Rattle.vl_mean.specs.contracts.driver.Driver as driver;
    ghost use Rattle.vl_mean.specs.contracts.driver.Start as start;

    ghost coded = { Prim.hlevel (codes, decl.the_row.coded, driver.the_row.coded, start.the_row.coded) };

    ghost view = { λ d. record { decls = d.decls; drivers = d.drivers; starts = d.starts } };

    ghost invariant = { λ d. All EndsPlain d.decls };
}

impl Draft {
    /// Nothing is written.
    pub fn new(alloc: Global) -> Draft
        ensures { result ≡ spec.nothing }
    {
        Draft {
            decls: Decls::new(alloc),
            drivers: List::new(alloc),
            starts: List::new(alloc),
        }
    }

    /// What is declared so far.
    pub fn decls(&self) -> &Decls
        ensures { result.now ≡ self.now.decls }
    {
        &self.decls
    }

    /// Adds a declaration, which stands under its full name, behind the others. Where no memory is left it is
    /// dropped; so many that a table has no place for one more don't stand in memory.
    #[tactic(auto, using(crate::proofs::Apart::ends))]
    pub fn declare(&mut self, decl: Decl) -> Result<(), Memory>
        requires fresh { is_declared self.old.decls decl.name ≡ false }
        requires ended { EndsPlain decl }
        requires shaped { IsShaped decl }
        ensures ok { OnOk result (self.new ≡ spec.with_decl self.old decl) }
        ensures err { OnErr result (self.new ≡ self.old) }
    {
        if self.decls.len() >= 4_294_967_295 {
            return Err(Memory);
        }
        self.decls.push(decl)
    }

    /// Adds a driver behind the others. Where no memory is left it is dropped.
    pub(crate) fn drive(&mut self, driver: Driver) -> Result<(), Memory>
        ensures ok { OnOk result (self.new ≡ spec.with_driver self.old driver) }
        ensures err { OnErr result (self.new ≡ self.old) }
    {
        self.drivers.push(driver)
    }

    /// Adds a target with its value at first behind the others. Where no memory is left it is dropped.
    pub fn start(&mut self, start: Start) -> Result<(), Memory>
        ensures ok { OnOk result (self.new ≡ spec.with_start self.old start) }
        ensures err { OnErr result (self.new ≡ self.old) }
    {
        self.starts.push(start)
    }

    /// The design, where nothing in it is refused.
    pub fn finish(self) -> Flat
        requires { IsLawful self.decls self.drivers self.starts }
        ensures decls { result.decls ≡ self.decls }
        ensures drivers { result.drivers ≡ self.drivers }
        ensures starts { result.starts ≡ self.starts }
    {
        let Draft {
            decls,
            drivers,
            starts,
        } = self;
        Flat {
            decls,
            drivers,
            starts,
        }
    }
}
