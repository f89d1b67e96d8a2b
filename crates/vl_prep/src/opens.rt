//! The conditionals that are open in a text.

ghost use Rattle.std.specs.Prelude.{◌≡◌, [], OnOk};
ghost use Rattle.vl_prep.specs.Opens as specs;

use fv_text::{Memory, Pos};
use std::alloc::Global;
use std::marker::Model;

/// What has become of the groups of a conditional.
#[derive(Debug, Clone, Copy, PartialEq, Eq)]
pub(crate) enum Group {
    /// The group that is read now is the chosen one.
    Chosen,
    /// No group was chosen so far.
    Waiting,
    /// A group before this one was chosen, or the conditional itself stands in a group that isn't chosen.
    Passed,
}

/// A conditional whose end hasn't come.
#[derive(Debug, Clone, Copy)]
pub(crate) struct Open {
    pub place: Pos,
    pub group: Group,
    /// Whether its last group, behind `else, is being read.
    pub last: bool,
}

/// The open conditionals. Contracts see them innermost first.
#[derive(Drop)]
pub(crate) struct Opens {
    innermost: Option<Open>,
    outer: Vec<Open>,
}

impl Model for Opens {
    ghost use Rattle.std.specs.Prelude.{◌≡◌, List, [], ◌++◌, reverse, IfNone};
    ghost use Rattle.std.specs.Option.{option_to_list};
    ghost use Rattle.vl_prep.specs.declared.opens.Open.{Open};

    ghost Value = { List Open };

    ghost view = { λ o. option_to_list o.innermost ++ reverse o.outer.items };

    ghost invariant = { λ o. IfNone o.innermost (o.outer.items ≡ []) };
}

impl Opens {
    pub(crate) fn new(alloc: Global) -> Opens
        ensures { result ≡ [] }
    {
        Opens {
            innermost: None,
            outer: Vec::new(alloc),
        }
    }

    /// Whether what stands here is in chosen groups alone.
    pub(crate) fn are_chosen(&self) -> bool
        ensures { result ≡ specs.are_chosen self.now }
    {
        match self.innermost {
            Some(open) => open.group == Group::Chosen,
            None => true,
        }
    }

    /// Whether one is open.
    pub(crate) fn is_open(&self) -> bool
        ensures { result ≡ specs.is_open self.now }
    {
        self.innermost.is_some()
    }

    /// Whether another group of the innermost one can begin.
    pub(crate) fn can_turn(&self) -> bool
        ensures { result ≡ specs.can_turn self.now }
    {
        match self.innermost {
            Some(open) => !open.last,
            None => false,
        }
    }

    /// Opens one more, whose name decides for its first group, or doesn't.
    pub(crate) fn open(&mut self, place: Pos, decided: bool) -> Result<(), Memory>
        ensures { OnOk result (self.new ≡ specs.opened place decided self.old) }
    {
        let group = first_group(self.are_chosen(), decided);
        if let Some(open) = self.innermost {
            self.outer.push(open)?;
        }
        self.innermost = Some(Open {
            place,
            group,
            last: false,
        });
        Ok(())
    }

    /// Closes the innermost one, and answers its place. None where none is open.
    pub(crate) fn close(&mut self) -> Option<Pos>
        ensures left { self.new ≡ specs.closed self.old }
        ensures place { result ≡ specs.innermost_place self.old }
    {
        let place = self.innermost.map(|open| open.place);
        self.innermost = self.outer.pop();
        place
    }

    /// Ends the innermost group and begins another, for which its name decides, or doesn't.
    pub(crate) fn turn(&mut self, last: bool, decided: bool)
        ensures { self.new ≡ specs.turned last decided self.old }
    {
        if let Some(open) = self.innermost {
            self.innermost = Some(Open {
                place: open.place,
                group: next_group(open.group, decided),
                last,
            });
        }
    }
}

/// The first group of a conditional that stands in chosen groups, or doesn't.
fn first_group(is_in_chosen: bool, decided: bool) -> Group
    ensures { result ≡ specs.first_group is_in_chosen decided }
{
    match (is_in_chosen, decided) {
        (true, true) => Group::Chosen,
        (true, false) => Group::Waiting,
        (false, _) => Group::Passed,
    }
}

/// The group behind one of this kind. At most one group of a conditional is chosen.
fn next_group(group: Group, decided: bool) -> Group
    ensures { result ≡ specs.next_group group decided }
{
    match group {
        Group::Waiting if decided => Group::Chosen,
        Group::Waiting => Group::Waiting,
        Group::Chosen | Group::Passed => Group::Passed,
    }
}
