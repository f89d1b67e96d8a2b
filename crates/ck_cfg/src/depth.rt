//! The lines of `[depth]`.

ghost use Rattle.std.specs.Prelude.{◌≡◌, ◌≤◌, ◌<◌, MatchOption};
ghost use Rattle.std.specs.List.{list_any};
ghost use Rattle.fv_lines.specs.Words.{words};
ghost use Rattle.ck_cfg.specs.Faults.{Goes};
ghost use Rattle.ck_cfg.specs.Depths.{is_skipped, is_channel, is_for, depth_at, with_skip, with_depth};

use crate::config::Depth;
use crate::cycles::{Cycles, read_cycles};
use crate::fault::CfgFault;
use crate::kind::CheckKind;
use crate::reader::Reader;
use crate::target::Target;
use fv_lines::next_word;
use fv_text::Text;
use std::alloc::Global;

/// No cycle of a check is above this one.
const DEEPEST: u64 = 100;

impl Reader {
    /// A line of `[depth]`.
    pub(crate) fn take_depth(
        &mut self,
        alloc: Global,
        line: u32,
        text: &[u8],
    ) -> Result<(), CfgFault>
        ensures { Goes self.new result (with_depth self.old line (words text.now)) }
    {
        let Some((word, numbers)) = next_word(text) else {
            return Err(CfgFault::Depth { line });
        };
        if is_skipped(word) {
            self.config.skips.push(Text::from_bytes(alloc, word)?)?;
            return Ok(());
        }
        let Some(target) = Target::of(word, self.config.nret) else {
            return Err(CfgFault::Depth { line });
        };
        let Some(cycles) = read_cycles(target.kind, numbers) else {
            return Err(CfgFault::Depth { line });
        };
        if has_depth(self.config.depths.as_slice(), target.kind, target.channel) {
            let key = Text::from_bytes(alloc, word)?;
            return Err(CfgFault::Twice { line, key });
        }
        let Some(depth) = Depth::of(target, cycles) else {
            return Err(CfgFault::TooDeep { line });
        };
        self.config.depths.push(depth)?;
        Ok(())
    }
}

impl Depth {
    /// None exactly where the cycle of the check is above 100.
    fn of(target: Target, cycles: Cycles) -> Option<Depth>
        requires start { cycles.start ≤ cycles.trig }
        requires trig { cycles.trig ≤ cycles.cycle }
        ensures { MatchOption result (100 < cycles.cycle)
            (λ d. (cycles.cycle ≤ 100) × (d ≡ depth_at target cycles)) }
    {
        if cycles.cycle > DEEPEST {
            return None;
        }
        Some(Depth {
            kind: target.kind,
            channel: target.channel,
            start: cycles.start as u32,
            trig: cycles.trig as u32,
            cycle: cycles.cycle as u32,
        })
    }

    /// Whether the line is of this kind, and of this channel or of no channel alone.
    pub(crate) fn is_for(&self, kind: CheckKind, channel: Option<u32>) -> bool
        ensures { result ≡ is_for kind channel self.now }
    {
        self.kind.is(kind) && is_channel(self.channel, channel)
    }
}

fn is_channel(first: Option<u32>, second: Option<u32>) -> bool
    ensures { result ≡ is_channel first second }
{
    match (first, second) {
        (None, None) => true,
        (Some(first), Some(second)) => first == second,
        _ => false,
    }
}

fn has_depth(depths: &[Depth], kind: CheckKind, channel: Option<u32>) -> bool
    ensures { result ≡ list_any (is_for kind channel) depths.now }
{
    depths.iter().any(|depth| depth.is_for(kind, channel))
}

/// Whether a line that begins with this word is skipped.
fn is_skipped(word: &[u8]) -> bool
    ensures { result ≡ is_skipped word.now }
{
    match word {
        b"hang" | b"cover" | b"fault" | b"causal_mem" | b"causal_io" => true,
        [b'c', b's', b'r', ..] => true,
        [b'b', b'u', b's', b'_', ..] => true,
        _ => false,
    }
}
