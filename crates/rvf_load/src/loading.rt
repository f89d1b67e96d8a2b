//! One text from its bytes to its net.

ghost use Rattle.std.specs.Prelude.{◌≡◌, ◌≤◌, ◌<◌, ◌^◌, List, All, Ok, length};
ghost use Rattle.vl_prep.specs.Macros.{held};
ghost use Rattle.vl_tree.specs.WellFormed.{IsModule};
ghost use Rattle.rvf_load.specs.Loads as loads;
ghost use Rattle.rvf_load.specs.Loads.{Answers};
ghost use Rattle.rvf_load.specs.Stages as stages;
ghost use Rattle.rvf_load.specs.Stages.{Gives};
ghost use Rattle.vl_text.specs.SourceText.{Comes, Only};
ghost use Rattle.vl_text.specs.Texts.{Text, lines_seen, texts_seen};

use crate::asked::Probes;
use crate::fault::LoadFault;
use crate::loaded::Loaded;
use crate::netted::weighed;
use crate::ordering::in_order;
use rv_table::Opts;
use rvfi_port::Wants;
use std::alloc::Global;
use vl_prep::Macros;
use vl_text::{Assumption, Core, SourceText, TextFault, read_source};
use vl_tree::Source;

/// The macro that says that memory is reached by whole aligned words.
const ALIGNED: &str = "RISCV_FORMAL_ALIGNED_MEM";

/// The macro that says that the results of M are replaced.
const ALTOPS: &str = "RISCV_FORMAL_ALTOPS";

fn of_text(fault: TextFault) -> LoadFault
    ensures { result ≡ stages.of_text fault }
{
    match fault {
        TextFault::Memory => LoadFault::Memory,
        fault => LoadFault::Text(fault),
    }
}

fn opts_of(core: Core, macros: &Macros) -> Opts
    ensures { result ≡ loads.opts_of core (held macros.now) }
{
    Opts {
        aligned: macros.has(ALIGNED),
        altops: macros.has(ALTOPS),
        c: core.compressed,
    }
}

fn wants_of(probes: Probes, macros: &Macros) -> Wants
    ensures { result ≡ loads.wants_of probes (held macros.now) }
{
    Wants {
        imem: probes.imem,
        dmem: probes.dmem,
        aligned: macros.has(ALIGNED),
    }
}

/// The net of the design that a tree writes, with the options that macros say.
fn from_tree(
    alloc: Global,
    core: Core,
    tree: &Source,
    macros: &Macros,
    channels: u32,
    probes: Probes,
    factors: &[u32],
) -> Result<Loaded, LoadFault>
    requires formed { All IsModule tree.now.modules }
    requires many { length factors.now < 2 ^ 32 }
    ensures { (texts lines : List Text)
        → Only (Comes core texts lines) (Ok (record { tree = tree.now; macros = held macros.now }))
        → Gives (record {
          core = core;
          texts = texts;
          lines = lines;
          channels = channels;
          probes = probes;
          factors = factors.now;
        }) result }
{
    match in_order(alloc, tree.modules.as_slice()) {
        Ok(ordered) => {
            let wants = wants_of(probes, macros);
            let opts = opts_of(core, macros);
            weighed(alloc, &ordered, channels, wants, opts, factors)
        }
        Err(fault) => Err(fault),
    }
}

/// The net of the design that texts write, with the top module `rvfi_wrapper`.
///
/// The texts are lexed, preprocessed and parsed, the tree is elaborated, its drivers are put in order and weighed, and
/// the design is lowered and its port bound. The first of these that refuses is answered; `Heavy` comes where the
/// weight times one of the factors is above 20,000,000. Takes time about linear in the texts and in the design.
pub fn load(
    alloc: Global,
    core: Core,
    texts: &[SourceText<'_>],
    assumptions: &[Assumption<'_>],
    channels: u32,
    probes: Probes,
    factors: &[u32],
) -> Result<Loaded, LoadFault>
    requires channels { 1 ≤ channels × channels ≤ 2 }
    requires many { length factors.now < 2 ^ 32 }
    ensures { Answers (record {
      core = core;
      texts = texts_seen texts.now;
      lines = lines_seen assumptions.now;
      channels = channels;
      probes = probes;
      factors = factors.now;
    }) result }
{
    match read_source(alloc, core, texts, assumptions) {
        Ok((tree, macros)) => from_tree(alloc, core, &tree, &macros, channels, probes, factors),
        Err(fault) => Err(of_text(fault)),
    }
}
