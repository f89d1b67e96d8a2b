//! What passed, in order: a log that stands in the proofs alone, and takes no memory.

ghost use Rattle.std.specs.Prelude.{◌≡◌, ◌++◌, ◌∷◌, []};
ghost use Rattle.fv_base.specs.Events.{event_of};

use crate::event::{Event, Happening};
use fv_text::List;
use logbook::{Gain, Offer, Plain, Rule, Seen, Start};
use std::marker::Model;

/// A book without a rule: of its parts an offer alone is used, as a place for what was heard.
pub(crate) struct Law;

impl Rule<List<Event>, u64> for Law {
    ghost use Rattle.std.specs.Prelude.{[]};
    ghost use base.Fml.{ftrue};

    ghost holds = { λ cells log. Unit {0} };

    ghost first = { [] };

    ghost hinted = { λ n log. Unit {0} };

    ghost shows = { λ log. [] };

    ghost keeps = { λ names log. ftrue };

    ghost moves = { λ ask before after answer. Unit {0} };
}

/// Nothing is traded.
pub(crate) struct Nothing;

impl Gain<List<Event>, u64> for Nothing {
    ghost use base.Fml.{ftrue};

    ghost after = { λ names about answer. ftrue };
}

/// One event more, behind those that an offer holds.
#[derive(Drop)]
pub(crate) struct Addition<'a> {
    heard: &'a Offer<List<Event>, u64, Law, Nothing>,
    happening: Happening<'a>,
}

/// What an offer is to hold.
pub(crate) struct Note;

impl Plain<u64, List<Event>, u64> for Note {
    ghost use Rattle.std.specs.Prelude.{[], None};

    ghost ask = { λ x. [] };

    ghost state = { λ x. None };
}

impl<'a> Plain<Addition<'a>, List<Event>, u64> for Note {
    ghost use Rattle.std.specs.Prelude.{◌++◌, ◌∷◌, [], None};
    ghost use Rattle.fv_base.specs.Events.{event_of};

    ghost ask = { λ x. x.heard.now.ask ++ event_of x.happening ∷ [] };

    ghost state = { λ x. None };
}

/// What passed, in order. Contracts see it as its events.
#[derive(Drop)]
pub(crate) struct Journal {
    seen: Seen<List<Event>, u64, Law>,
    heard: Offer<List<Event>, u64, Law, Nothing>,
}

impl Model for Journal {
    ghost use Rattle.std.specs.Prelude.{List};
    ghost use Rattle.fv_base.specs.declared.event.Event.{Event};

    ghost Value = { List Event };

    ghost view = { λ j. j.heard.ask };
}

impl Journal {
    /// Nothing passed so far.
    pub(crate) fn new() -> Journal
        ensures { result ≡ [] }
    {
        let (seen, _first, _second) = Seen::open(Start::alone(), 0, 0);
        let heard = seen.plain::<Nothing, u64, Note>(&0);
        Journal { seen, heard }
    }

    /// Notes what happened.
    pub(crate) fn note(&mut self, happening: Happening<'_>)
        ensures { self.new ≡ self.old ++ event_of happening.entry ∷ [] }
    {
        let heard = self.seen.plain::<Nothing, Addition<'_>, Note>(&Addition {
            heard: &self.heard,
            happening,
        });
        self.heard = heard;
    }
}
