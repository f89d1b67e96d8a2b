//! The choices of a run from the bits of its sources.

ghost use Rattle.std.specs.Prelude.{◌≡◌, length, IfOk};
ghost use Rattle.tr_replay.specs.Traces.{choices_of};
ghost use Rattle.bm_unroll.specs.Frames.{AreDistinct};
ghost use Rattle.bm_decide.specs.Chosen.{AreReadable, HaveNumbers, numbers_read};

use crate::numbers::numbers_of;
use crate::store::put_source;
use crate::verdict::Witness;
use bm_unroll::Source;
use fv_text::{List, Memory};
use std::alloc::Global;
use tr_replay::Chosen;

/// The choices in which the sources have these numbers.
#[tactic(auto, using(crate::proofs::OneByOne::have_all))]
fn choices(alloc: Global, sources: &[Source], numbers: &[u128]) -> Result<Chosen, Memory>
    requires distinct { AreDistinct sources.now }
    requires each { length numbers.now ≡ length sources.now }
    ensures { IfOk result (λ made. HaveNumbers sources.now numbers.now (choices_of made)) }
{
    let mut made = Chosen {
        each_cycle: List::new(alloc),
        once: List::new(alloc),
        regs: List::new(alloc),
        words: List::new(alloc),
    };
    for (index, source) in sources.iter().enumerate() {
        put_source(alloc, &mut made, *source, numbers[index])?;
    }
    Ok(made)
}

/// The choices that a witness's values are those of: each source has the number of its bits, and all else is 0.
pub fn chosen_of(alloc: Global, witness: &Witness) -> Result<Chosen, Memory>
    requires { AreReadable witness.now.bits }
    ensures { IfOk result (λ made. HaveNumbers witness.now.bits.sources (numbers_read witness.now)
        (choices_of made)) }
{
    let bits = &witness.bits;
    let values = witness.values.as_slice();
    let numbers = numbers_of(alloc, values, bits.widths.as_slice())?;
    choices(alloc, bits.sources.as_slice(), numbers.as_slice())
}
