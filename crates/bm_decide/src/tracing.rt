//! The trace of a witness.

ghost use Rattle.std.specs.Prelude.{IfOk};
ghost use Rattle.wn_net.specs.Names.{AreNamesOf};
ghost use Rattle.bm_unroll.specs.Frames.{Chooses};
ghost use Rattle.bm_decide.specs.Verdicts.{AreBitsOf};
ghost use Rattle.bm_decide.specs.Chosen.{ShowsWitness, numbers_read};

use crate::choosing::chosen_of;
use crate::verdict::Witness;
use fv_text::{Memory, Trace};
use std::alloc::Global;
use tr_replay::replay;
use wn_net::{Names, Net};

/// The trace of the run that a witness tells, up to a cycle.
pub fn witness_trace(
    alloc: Global,
    net: &Net,
    names: &Names,
    cycle: u32,
    witness: &Witness,
) -> Result<Trace, Memory>
    requires names { AreNamesOf net.now names.now }
    requires bits { AreBitsOf net.now cycle witness.now.bits }
    requires chooses { Chooses net.now witness.now.bits.sources (numbers_read witness.now) }
    ensures { IfOk result (ShowsWitness net.now names.now cycle witness.now) }
{
    let _ = net.nodes();
    let chosen = chosen_of(alloc, witness)?;
    replay(alloc, net, names, &chosen, cycle)
}
