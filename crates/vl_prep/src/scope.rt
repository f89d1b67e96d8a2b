//! The reading of one text: the whole, or that of a macro.

ghost use Rattle.std.specs.Prelude.{◌≡◌, [], unwrap_or};
ghost use Rattle.vl_prep.specs.declared.reading.Reading.TheVariants as reading;

use crate::opens::Opens;
use crate::reading::Reading;
use fv_text::Pos;
use std::alloc::Global;
use std::mem;

/// Where a text stands.
#[derive(Debug, Clone, Copy)]
pub(crate) struct Site {
    /// The place of the outermost use, in a macro's text.
    pub at: Option<Pos>,
    /// How many uses may still stand within one another.
    pub levels: u32,
}

impl Site {
    /// The place that counts for what stands at a place of the text.
    pub(crate) fn place(self, pos: Pos) -> Pos
        ensures { result ≡ unwrap_or self.at pos }
    {
        self.at.unwrap_or(pos)
    }
}

#[derive(Drop)]
pub(crate) struct Scope {
    pub opens: Opens,
    pub reading: Reading,
}

impl Scope {
    pub(crate) fn new(alloc: Global) -> Scope
        ensures opens { result.opens ≡ [] }
        ensures reading { result.reading ≡ reading.Plain }
    {
        Scope {
            opens: Opens::new(alloc),
            reading: Reading::Plain,
        }
    }

    /// What is begun, of which the caller takes care.
    pub(crate) fn take_reading(&mut self) -> Reading
        ensures taken { result ≡ self.old.reading }
        ensures left { self.new ≡ record { opens = self.old.opens; reading = reading.Plain } }
    {
        mem::replace(&mut self.reading, Reading::Plain)
    }
}
