ghost use Rattle.std.specs.Prelude.{◌≡◌, ◌≤◌, ◌+◌, ℕ, true, [], length, None, IfOk, IfSome, OnOk};
ghost use Rattle.lrat_check.specs.Codes.{lit_of};
ghost use Rattle.lrat_check.specs.Sets.{IsLit, AreLits};
ghost use Rattle.lrat_check.specs.Store.{coded, held_of, next};
ghost use Rattle.sat_trail.specs.Trail.{lits, true_codes, IsNext};
ghost use Rattle.sat_propagate.specs.Watching.{is_false_code, SameHeld};
ghost use Rattle.sat_propagate.specs.Watches.{Keeps, Sees, CalmWhere, Finds, scan_at, OpenBelow, Adds};

use crate::lists::Lists;
use crate::order::order;
use crate::visit::{Stop, visit_list};
use crate::watch::{Watch, watch_of};
use crate::watch_scan::Scan;
use fv_text::Memory;
use lrat_check::{Store, code_of, flip, lit_of};
use sat_trail::Trail;
use std::alloc::Global;
use std::marker::Model;

/// Clauses of two different literals or more, in each of which two literals are watched.
#[derive(Drop)]
pub struct Watches {
    alloc: Global,
    store: Store,
    lists: Lists,
    /// How many entries of the trail were gone through.
    head: usize,
    /// The literal whose list is gone through, and what is left of the list.
    code: u64,
    rest: Vec<Watch>,
}

impl Model for Watches {
    ghost use Rattle.sat_propagate.specs.Watches.{State};

    ghost Value = { State };

    ghost view = { λ w. record { store = w.store; lists = w.lists; head = w.head; code = w.code; rest = w.rest.items } };
}

impl Watches {
    pub fn new(alloc: Global) -> Watches
        ensures keeps { Keeps result [] }
        ensures none { (id : ℕ) → coded result.store id ≡ None }
        ensures next { next result.store ≡ 0 }
    {
        Watches {
            alloc,
            store: Store::new(alloc),
            lists: Lists::new(alloc),
            head: 0,
            code: 2,
            rest: Vec::new(alloc),
        }
    }

    /// Holds a clause of two different literals or more: whether it is one.
    pub fn add(&mut self, id: u64, lits: &[i64], trail: &Trail) -> Result<bool, Memory>
        requires keeps { Keeps self.old trail.now }
        requires above { next self.old.store ≤ id }
        requires lits { AreLits lits.now }
        requires open { OpenBelow lits.now trail.now }
        ensures keeps { OnOk result (Keeps self.new trail.now) }
        ensures next { OnOk result (next self.new.store ≤ id + 1) }
        ensures adds { IfOk result (λ added. Adds (coded self.old.store) (coded self.new.store) id lits.now added) }
    {
        let mut ordered = Vec::from_slice(self.alloc, lits)?;
        if !order(&mut ordered, trail) {
            leave_out(&mut self.store, id)?;
            return Ok(false);
        }
        self.store.add(id, ordered.as_slice())?;
        let first = code_of(ordered[0]);
        let second = code_of(ordered[1]);
        let one = watch_of(id, second)?;
        let other = watch_of(id, first)?;
        self.lists.push(first, one)?;
        self.lists.push(second, other)?;
        self.head = self.head.min(trail.open_until(ordered[1]));
        Ok(true)
    }

    /// A clause that is false or forces a literal, if there is one.
    pub fn next(&mut self, trail: &Trail) -> Result<Scan, Memory>
        requires { Keeps self.old trail.now }
        ensures keeps { OnOk result (Keeps self.new trail.now) }
        ensures head { OnOk result (self.new.head ≤ length trail.now) }
        ensures same { OnOk result (SameHeld (coded self.old.store) (coded self.new.store)) }
        ensures next { OnOk result (next self.new.store ≡ next self.old.store) }
        ensures sees { IfOk result (λ scan. Sees (held_of self.new.store) (lits trail.now) scan) }
        ensures calm { IfOk result (λ scan. CalmWhere self.new.store trail.now scan) }
    {
        if let Some(scan) = self.resume(trail)? {
            return Ok(scan);
        }
        for place in self.head..usize::MAX {
            match trail.lit_at(place) {
                None => return Ok(Scan::Settled),
                Some(lit) => {
                    if let Some(scan) = self.advance(trail, lit)? {
                        return Ok(scan);
                    }
                }
            }
        }
        let _len = trail.len();
        Ok(Scan::Settled)
    }

    /// Goes on with the list that was begun. Where its literal is false no longer, the watches go back.
    fn resume(&mut self, trail: &Trail) -> Result<Option<Scan>, Memory>
        requires { Keeps self.old trail.now }
        ensures keeps { OnOk result (Keeps self.new trail.now) }
        ensures head { OnOk result (self.new.head ≤ length trail.now) }
        ensures same { OnOk result (SameHeld (coded self.old.store) (coded self.new.store)) }
        ensures next { OnOk result (next self.new.store ≡ next self.old.store) }
        ensures finds { IfOk result (λ found. Finds self.new trail.now found) }
    {
        self.head = self.head.min(trail.len());
        if trail.is_false(self.code) {
            return self.visit(trail);
        }
        self.lists.put_back(self.code, &mut self.rest)?;
        Ok(None)
    }

    /// Begins with the list of the literal that became false by the next true one.
    fn advance(&mut self, trail: &Trail, lit: i64) -> Result<Option<Scan>, Memory>
        requires keeps { Keeps self.old trail.now }
        requires rest { self.old.rest ≡ [] }
        requires lit { IsNext trail.now self.old.head lit }
        ensures keeps { OnOk result (Keeps self.new trail.now) }
        ensures head { OnOk result (self.new.head ≡ self.old.head + 1) }
        ensures same { OnOk result (SameHeld (coded self.old.store) (coded self.new.store)) }
        ensures next { OnOk result (next self.new.store ≡ next self.old.store) }
        ensures finds { IfOk result (λ found. Finds self.new trail.now found) }
    {
        let _len = trail.len();
        self.head += 1;
        self.code = flip(code_of(lit));
        self.lists.take(self.code, &mut self.rest);
        self.visit(trail)
    }

    /// Goes through what is left of the list.
    fn visit(&mut self, trail: &Trail) -> Result<Option<Scan>, Memory>
        requires keeps { Keeps self.old trail.now }
        requires code { is_false_code (true_codes trail.now) self.old.code ≡ true }
        ensures keeps { OnOk result (Keeps self.new trail.now) }
        ensures head { OnOk result (self.new.head ≡ self.old.head) }
        ensures same { OnOk result (SameHeld (coded self.old.store) (coded self.new.store)) }
        ensures next { OnOk result (next self.new.store ≡ next self.old.store) }
        ensures finds { IfOk result (λ found. Finds self.new trail.now found) }
    {
        let code = self.code;
        if let Some(stop) = visit_list(
            &mut self.store,
            &mut self.lists,
            &mut self.rest,
            trail,
            code,
        )? {
            return Ok(Some(scan_of(stop)));
        }
        self.lists.put_back(code, &mut self.rest)?;
        Ok(None)
    }
}

/// Takes up an id that holds no clause. A store finds each id at once as long as they leave no gap.
fn leave_out(store: &mut Store, id: u64) -> Result<(), Memory>
    requires above { next store.old ≤ id }
    requires none { coded store.old id ≡ None }
    ensures same { OnOk result (coded store.new ≡ coded store.old) }
    ensures next { OnOk result (next store.new ≡ id + 1) }
{
    store.add(id, &[])?;
    store.remove(id);
    Ok(())
}

fn scan_of(stop: Stop) -> Scan
    requires { IfSome stop.forced (λ code. IsLit (lit_of code)) }
    ensures { result ≡ scan_at stop.id stop.forced }
{
    match stop.forced {
        None => Scan::Conflict(stop.id),
        Some(code) => Scan::Unit(stop.id, lit_of(code)),
    }
}
