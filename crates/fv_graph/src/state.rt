ghost use Rattle.std.specs.Prelude.{◌≡◌, ◌<◌, ◌++◌, ◌∷◌, [], length, slice_set, OnOk};
ghost use Rattle.fv_graph.specs.declared.state.Progress.TheVariants as p;

use fv_text::Memory;

/// How far a node has come.
#[derive(Debug, Clone, Copy, PartialEq, Eq)]
pub(crate) enum Progress {
    New,
    /// It stands on the path.
    Open,
    Done,
}

/// A node on the path, and which of its targets comes next.
#[derive(Debug, Clone, Copy)]
pub(crate) struct Step {
    pub(crate) node: u32,
    pub(crate) next: usize,
}

/// A walk, as far as it has come.
#[derive(Drop)]
pub(crate) struct State {
    pub(crate) progress: Vec<Progress>,
    pub(crate) path: Vec<Step>,
    pub(crate) done: Vec<u32>,
}

impl State {
    /// Puts a new node behind the path.
    pub(crate) fn open(&mut self, node: u32) -> Result<(), Memory>
        requires { node < length self.old.progress.items }
        ensures done { self.new.done ≡ self.old.done }
        ensures ok { OnOk result ((self.new.progress.items ≡ slice_set self.old.progress.items node p.Open)
            × (self.new.path.items ≡ self.old.path.items ++ record { node = node; next = 0 } ∷ [])) }
    {
        if self.path.push(Step { node, next: 0 }).is_err() {
            return Err(Memory);
        }
        self.progress.as_mut_slice()[node as usize] = Progress::Open;
        Ok(())
    }

    /// Puts a node behind those that are done.
    pub(crate) fn finish(&mut self, node: u32) -> Result<(), Memory>
        requires { node < length self.old.progress.items }
        ensures path { self.new.path ≡ self.old.path }
        ensures ok { OnOk result ((self.new.progress.items ≡ slice_set self.old.progress.items node p.Done)
            × (self.new.done.items ≡ self.old.done.items ++ node ∷ [])) }
    {
        if self.done.push(node).is_err() {
            return Err(Memory);
        }
        self.progress.as_mut_slice()[node as usize] = Progress::Done;
        Ok(())
    }
}
