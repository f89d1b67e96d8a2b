ghost use Rattle.std.specs.Prelude.{◌≡◌, nat_eq, find, ◌≤◌, length, IfSome};
ghost use Rattle.std.specs.List.{starts_with};
ghost use Rattle.ck_cfg.specs.Kind.{kind_name};
ghost use Rattle.ck_cfg.specs.Target.{kind_begun, channel_behind, target_of};

use crate::kind::CheckKind;
use fv_lines::number_up_to;

/// What a depth line is for.
#[derive(Debug, Clone, Copy, PartialEq, Eq)]
pub(crate) struct Target {
    pub kind: CheckKind,
    pub channel: Option<u32>,
}

impl Target {
    /// The kind and the channel of a word, where there are so many channels. None where one of them is wrong.
    pub(crate) fn of(word: &[u8], channels: u32) -> Option<Target>
        ensures { result ≡ target_of channels word.now }
    {
        let kind = kind_begun(word)?;
        let channel = channel_behind(&word[kind.name().len()..], channels)?;
        Some(Target { kind, channel })
    }
}

/// The kind whose name begins the word.
#[tactic(auto, unfolding(crate::specs::Target::kind_begun))]
fn kind_begun(word: &[u8]) -> Option<CheckKind>
    ensures value { result ≡ kind_begun word.now }
    ensures within { IfSome result (λ k. length (kind_name k) ≤ length word.now) }
{
    kind_among(CheckKind::all(), word)
}

fn kind_among(kinds: &[CheckKind], word: &[u8]) -> Option<CheckKind>
    ensures { result ≡ find (λ k. starts_with nat_eq word.now (kind_name k)) kinds.now }
{
    kinds
        .iter()
        .copied()
        .find(|kind| word.starts_with(kind.name()))
}

fn channel_behind(rest: &[u8], channels: u32) -> Option<Option<u32>>
    ensures { result ≡ channel_behind channels rest.now }
{
    match rest {
        [] => Some(None),
        [b'_', b'c', b'h', digits @ ..] => {
            let number = number_up_to(digits, u64::from(channels.saturating_sub(1)))?;
            Some(Some(number as u32))
        }
        _ => None,
    }
}
