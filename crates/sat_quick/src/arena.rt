use crate::gave_up::GaveUp;
use std::alloc::Global;

/// Before the literals of a clause stand its id and how many they are.
const HEAD: usize = 2;

/// The clauses of three literals or more in one list. A clause is named by the place where it begins; where there is
/// none, it is as if it were empty.
#[derive(Drop)]
pub(crate) struct Arena {
    words: Vec<u32>,
}

impl Arena {
    pub(crate) fn new(alloc: Global) -> Arena {
        Arena {
            words: Vec::new(alloc),
        }
    }

    /// Where the clause begins that is added.
    pub(crate) fn add(&mut self, id: u32, lits: &[u32]) -> Result<u32, GaveUp> {
        let Ok(at) = u32::try_from(self.words.len()) else {
            return Err(GaveUp);
        };
        let Ok(many) = u32::try_from(lits.len()) else {
            return Err(GaveUp);
        };
        self.words.push(id)?;
        self.words.push(many)?;
        self.words.extend_from_slice(lits)?;
        Ok(at)
    }

    /// How many words all clauses take.
    pub(crate) fn len(&self) -> usize {
        self.words.len()
    }

    #[inline]
    fn word(&self, place: usize) -> u32 {
        match self.words.get(place) {
            Some(word) => *word,
            None => 0,
        }
    }

    pub(crate) fn id(&self, at: u32) -> u32 {
        self.word(at as usize)
    }

    /// Where the next clause begins.
    #[inline]
    pub(crate) fn end(&self, at: u32) -> usize {
        let many = self.word((at as usize).saturating_add(1)) as usize;
        (at as usize).saturating_add(HEAD).saturating_add(many)
    }

    #[inline]
    pub(crate) fn lits(&self, at: u32) -> &[u32] {
        let start = (at as usize).saturating_add(HEAD);
        let end = self.end(at);
        if start <= end && end <= self.words.len() {
            &self.words[start..end]
        } else {
            &[]
        }
    }

    #[inline]
    pub(crate) fn lits_mut(&mut self, at: u32) -> &mut [u32] {
        let start = (at as usize).saturating_add(HEAD);
        let end = self.end(at);
        if start <= end && end <= self.words.len() {
            &mut self.words[start..end]
        } else {
            &mut []
        }
    }
}
