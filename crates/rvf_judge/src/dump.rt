//! The dump of a run that gives what is sought.

ghost use Rattle.std.specs.Prelude.{IfOk};
ghost use Rattle.wn_net.specs.Names.{AreNamesOf};
ghost use Rattle.rvf_judge.specs.JudgeParts.{FoundSomehow, IsDump};

use bm_decide::{Witness, witness_trace};
use ck_ask::Question;
use fv_text::{Memory, Text};
use std::alloc::Global;
use vcd_dump::vcd;
use wn_net::{Names, Net};

/// The dump of the run that a witness tells, up to the question's cycle.
pub(crate) fn dump_of(
    alloc: Global,
    net: &Net,
    names: &Names,
    question: &Question,
    witness: &Witness,
) -> Result<Text, Memory>
    requires names { AreNamesOf net.now names.now }
    requires found { FoundSomehow net.now question.now witness.now }
    ensures { IfOk result (IsDump net.now names.now question.now witness.now) }
{
    let _ = net.nodes();
    let trace = witness_trace(alloc, net, names, question.cycle(), witness)?;
    let bytes = vcd(alloc, &trace)?;
    Ok(Text::from_vec(bytes))
}
