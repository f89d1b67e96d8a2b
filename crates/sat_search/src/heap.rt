use fv_text::Memory;
use std::alloc::Global;

/// Where an activity reaches this, all are made smaller.
const MOST_ACTIVITY: u64 = 1 << 60;

/// What is known of a variable.
#[derive(Debug, Clone, Copy)]
struct Variable {
    activity: u64,
    /// One above its place in the heap; 0 where it isn't there.
    place: u32,
}

/// A variable at a place of the heap.
#[derive(Debug, Clone, Copy)]
struct Placed {
    place: usize,
    index: u32,
    activity: u64,
}

/// Variables by their indexes, variable 1's being 0, the most active one first.
///
/// No clause says so: whoever takes a variable looks at it anew.
#[derive(Drop)]
pub(crate) struct Heap {
    /// None is more active than the one at half its place.
    indexes: Vec<u32>,
    /// By index.
    variables: Vec<Variable>,
    /// What the next conflict adds to an activity.
    step: u64,
}

impl Heap {
    pub(crate) fn new(alloc: Global) -> Heap {
        Heap {
            indexes: Vec::new(alloc),
            variables: Vec::new(alloc),
            step: 1 << 20,
        }
    }

    /// The variable comes in, if it isn't there, and if 32 bits hold its index.
    pub(crate) fn insert(&mut self, index: u64) -> Result<(), Memory> {
        let Ok(kept) = u32::try_from(index) else {
            return Ok(());
        };
        let at = index as usize;
        if at >= self.variables.len() {
            let unknown = Variable {
                activity: 0,
                place: 0,
            };
            self.variables.resize(at.saturating_add(1), unknown)?;
        }
        let Variable { activity, place } = self.variables[at];
        if place == 0 {
            let last = self.indexes.len();
            self.indexes.push(kept)?;
            self.note(last, kept);
            self.rise(last, kept, activity);
        }
        Ok(())
    }

    /// The most active variable goes out.
    pub(crate) fn take(&mut self) -> Option<u64> {
        let last = self.indexes.pop()?;
        let Some(first) = self.indexes.get_mut(0) else {
            self.leave(last);
            return Some(last as u64);
        };
        let most = *first;
        *first = last;
        self.leave(most);
        self.sink(last);
        Some(most as u64)
    }

    pub(crate) fn len(&self) -> usize {
        self.indexes.len()
    }

    /// The variable took part in a conflict.
    pub(crate) fn bump(&mut self, index: u64) {
        let Some(variable) = self.variables.get_mut(index as usize) else {
            return;
        };
        variable.activity = variable.activity.saturating_add(self.step);
        let Variable { activity, place } = *variable;
        if let (Ok(index), true) = (u32::try_from(index), place > 1) {
            self.rise(place as usize - 1, index, activity);
        }
    }

    /// A conflict is over: the next ones count for more.
    pub(crate) fn decay(&mut self) {
        self.step = self.step.saturating_add(self.step / 16);
        if self.step >= MOST_ACTIVITY {
            for variable in self.variables.iter_mut() {
                variable.activity /= 1 << 40;
            }
            self.step /= 1 << 40;
        }
    }

    fn activity(&self, index: u32) -> u64 {
        match self.variables.get(index as usize) {
            Some(variable) => variable.activity,
            None => 0,
        }
    }

    /// The variable at the place.
    fn at(&self, place: usize) -> Option<Placed> {
        let index = *self.indexes.get(place)?;
        Some(Placed {
            place,
            index,
            activity: self.activity(index),
        })
    }

    /// The more active one of the two below the place.
    fn below(&self, place: usize) -> Option<Placed> {
        let left = place.saturating_mul(2).saturating_add(1);
        let one = self.at(left)?;
        if let Some(other) = self.at(left.saturating_add(1)) {
            if other.activity > one.activity {
                return Some(other);
            }
        }
        Some(one)
    }

    /// The variable at the place, which has this activity, goes up as far as it is the more active one.
    fn rise(&mut self, start: usize, rising: u32, activity: u64) {
        let mut place = start;
        for _ in 0..usize::BITS {
            if place == 0 {
                break;
            }
            let Some(above) = self.at((place - 1) / 2) else {
                break;
            };
            if activity <= above.activity {
                break;
            }
            self.put(place, above.index);
            place = above.place;
        }
        if place < start {
            self.put(place, rising);
        }
    }

    /// The variable goes from the first place down as far as another one is the more active one.
    fn sink(&mut self, sinking: u32) {
        let activity = self.activity(sinking);
        let mut place = 0usize;
        for _ in 0..usize::BITS {
            let Some(below) = self.below(place) else {
                break;
            };
            if below.activity <= activity {
                break;
            }
            self.put(place, below.index);
            place = below.place;
        }
        self.put(place, sinking);
    }

    /// The variable goes to the place.
    fn put(&mut self, place: usize, index: u32) {
        if let Some(put) = self.indexes.get_mut(place) {
            *put = index;
        }
        self.note(place, index);
    }

    /// The variable stands at the place.
    fn note(&mut self, place: usize, index: u32) {
        if let Some(variable) = self.variables.get_mut(index as usize) {
            variable.place = u32::try_from(place.saturating_add(1)).unwrap_or(0);
        }
    }

    /// The variable stands at no place.
    fn leave(&mut self, index: u32) {
        if let Some(variable) = self.variables.get_mut(index as usize) {
            variable.place = 0;
        }
    }
}
