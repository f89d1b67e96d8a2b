ghost use Rattle.std.specs.Prelude.{IfOk};
ghost use Rattle.vl_flow_effects.specs.Joins.{IsBehind, IsEither, IsNone, IsThen};

use fv_bit_sets::Bits;
use fv_text::Memory;
use std::alloc::Global;

/// What a statement does to bits, path by path.
#[derive(Debug, Drop)]
pub struct Effect {
    /// Read on some path before the path has surely assigned them.
    pub(crate) needs: Bits,
    /// Assigned on each path by blocking assignments.
    pub(crate) sure: Bits,
    /// Assigned on each path by some assignments.
    pub(crate) surely: Bits,
    /// Changed by some blocking assignment.
    pub(crate) blocking: Bits,
    /// Changed by some nonblocking one.
    pub(crate) nonblocking: Bits,
}

impl Effect {
    /// Of what does nothing.
    pub(crate) fn none(alloc: Global) -> Effect
        ensures { IsNone result }
    {
        Effect {
            needs: Bits::none(alloc),
            sure: Bits::none(alloc),
            surely: Bits::none(alloc),
            blocking: Bits::none(alloc),
            nonblocking: Bits::none(alloc),
        }
    }

    /// This one, and then the next one.
    pub(crate) fn then(&self, next: &Effect) -> Result<Effect, Memory>
        ensures { IfOk result (IsThen self.now next.now) }
    {
        let later = next.needs.without(&self.sure)?;
        let needs = self.needs.with(&later)?;
        let sure = self.sure.with(&next.sure)?;
        let surely = self.surely.with(&next.surely)?;
        let blocking = self.blocking.with(&next.blocking)?;
        let nonblocking = self.nonblocking.with(&next.nonblocking)?;
        Ok(Effect {
            needs,
            sure,
            surely,
            blocking,
            nonblocking,
        })
    }

    /// This one, or the other one.
    pub(crate) fn or(&self, other: &Effect) -> Result<Effect, Memory>
        ensures { IfOk result (IsEither self.now other.now) }
    {
        let needs = self.needs.with(&other.needs)?;
        let sure = self.sure.shared_with(&other.sure)?;
        let surely = self.surely.shared_with(&other.surely)?;
        let blocking = self.blocking.with(&other.blocking)?;
        let nonblocking = self.nonblocking.with(&other.nonblocking)?;
        Ok(Effect {
            needs,
            sure,
            surely,
            blocking,
            nonblocking,
        })
    }

    /// Behind what is read.
    pub(crate) fn behind(self, reads: &Bits) -> Result<Effect, Memory>
        ensures { IfOk result (IsBehind self reads.now) }
    {
        let Effect {
            needs,
            sure,
            surely,
            blocking,
            nonblocking,
        } = self;
        let all = reads.with(&needs)?;
        Ok(Effect {
            needs: all,
            sure,
            surely,
            blocking,
            nonblocking,
        })
    }
}
