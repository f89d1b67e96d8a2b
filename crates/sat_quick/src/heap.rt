use crate::codes::narrow;
use crate::gave_up::GaveUp;
use std::alloc::Global;

/// Where what a conflict adds to an activity reaches this, all are made smaller.
const MOST_ACTIVITY: u64 = 1 << 60;

/// A variable's place where it isn't in the heap.
const NOWHERE: u32 = u32::MAX;

/// Variables by their indexes, the most active one first.
#[derive(Drop)]
pub(crate) struct Heap {
    /// None is more active than the one at half its place.
    indexes: Vec<u32>,
    /// By index.
    activities: Vec<u64>,
    /// The places of the variables in the heap, by index.
    places: Vec<u32>,
    /// What the next conflict adds to an activity.
    step: u64,
}

impl Heap {
    /// For so many variables, none of which is in it.
    pub(crate) fn new(alloc: Global, vars: usize) -> Result<Heap, GaveUp> {
        let mut activities = Vec::new(alloc);
        activities.resize(vars, 0)?;
        let mut places = Vec::new(alloc);
        places.resize(vars, NOWHERE)?;
        Ok(Heap {
            indexes: Vec::with_capacity(alloc, vars)?,
            activities,
            places,
            step: 1 << 20,
        })
    }

    /// The variable comes in, if it isn't there.
    pub(crate) fn insert(&mut self, index: usize) -> Result<(), GaveUp> {
        if self.place(index) != NOWHERE || index >= self.places.len() {
            return Ok(());
        }
        let last = self.indexes.len();
        self.indexes.push(narrow(index))?;
        self.rise(last, narrow(index));
        Ok(())
    }

    /// The most active variable goes out.
    pub(crate) fn take(&mut self) -> Option<usize> {
        let last = self.indexes.pop()?;
        let Some(first) = self.indexes.get_mut(0) else {
            self.note(NOWHERE, last);
            return Some(last as usize);
        };
        let most = *first;
        *first = last;
        self.note(NOWHERE, most);
        self.sink(last);
        Some(most as usize)
    }

    /// The variable took part in a conflict.
    pub(crate) fn bump(&mut self, index: usize) {
        if let Some(activity) = self.activities.get_mut(index) {
            *activity = activity.saturating_add(self.step);
        }
        let place = self.place(index);
        if place != NOWHERE {
            self.rise(place as usize, narrow(index));
        }
    }

    /// A conflict is over: the next ones count for more.
    pub(crate) fn decay(&mut self) {
        self.step = self.step.saturating_add(self.step / 19);
        if self.step >= MOST_ACTIVITY {
            for activity in self.activities.iter_mut() {
                *activity /= 1 << 40;
            }
            self.step /= 1 << 40;
        }
    }

    #[inline]
    fn activity(&self, index: u32) -> u64 {
        match self.activities.get(index as usize) {
            Some(activity) => *activity,
            None => 0,
        }
    }

    #[inline]
    fn place(&self, index: usize) -> u32 {
        match self.places.get(index) {
            Some(place) => *place,
            None => NOWHERE,
        }
    }

    /// The place of the more active one of the two below the place, and that variable.
    #[inline]
    fn below(&self, place: usize) -> Option<(usize, u32)> {
        let left = place.saturating_mul(2).saturating_add(1);
        let right = left.saturating_add(1);
        let one = *self.indexes.get(left)?;
        if let Some(other) = self.indexes.get(right) {
            if self.activity(*other) > self.activity(one) {
                return Some((right, *other));
            }
        }
        Some((left, one))
    }

    /// The variable, which stands at the place, goes up as far as it is the more active one.
    fn rise(&mut self, start: usize, rising: u32) {
        let activity = self.activity(rising);
        let mut place = start;
        for _ in 0..usize::BITS {
            if place == 0 {
                break;
            }
            let above = (place - 1) / 2;
            let Some(other) = self.indexes.get(above) else {
                break;
            };
            let other = *other;
            if activity <= self.activity(other) {
                break;
            }
            self.put(place, other);
            place = above;
        }
        self.put(place, rising);
    }

    /// The variable goes from the first place down as far as another one is the more active one.
    fn sink(&mut self, sinking: u32) {
        let activity = self.activity(sinking);
        let mut place = 0usize;
        for _ in 0..usize::BITS {
            let Some((next, other)) = self.below(place) else {
                break;
            };
            if self.activity(other) <= activity {
                break;
            }
            self.put(place, other);
            place = next;
        }
        self.put(place, sinking);
    }

    /// The variable goes to the place.
    #[inline]
    fn put(&mut self, place: usize, index: u32) {
        if let Some(put) = self.indexes.get_mut(place) {
            *put = index;
        }
        self.note(narrow(place), index);
    }

    /// The variable stands at the place.
    #[inline]
    fn note(&mut self, place: u32, index: u32) {
        if let Some(noted) = self.places.get_mut(index as usize) {
            *noted = place;
        }
    }
}
