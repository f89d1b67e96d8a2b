//! A design whose names have one number each.
#![tactic(auto, using(wn_net::proofs::Laws::additions, crate::proofs::Names::listed_push))]

ghost use Rattle.std.specs.Prelude.{◌≡◌, OnOk};
ghost use Rattle.std.specs.List.{list_any};
ghost use Rattle.std.specs.Str.{bytes_eq};
ghost use Rattle.channel_answers.specs.Listed.{AreListed};

use fv_text::{List, Memory, Text, Word};
use std::alloc::Global;
use wn_net::{Net, NetName, Place};

fn has_text(list: &[NetName], text: &[u8]) -> bool
    ensures { result ≡ list_any (λ name. bytes_eq name.text text.now) list.now }
{
    list.iter().any(|name| name.text.bytes() == text)
}

/// Adds a name whose number is the word, if there is none of this text.
pub(crate) fn put_name(
    alloc: Global,
    net: &mut Net,
    list: &mut List<NetName>,
    text: &str,
    output: bool,
    word: Word,
) -> Result<bool, Memory>
    requires { AreListed net.old list.old }
    ensures { OnOk result (AreListed net.new list.new) }
{
    if has_text(list.as_slice(), text.as_bytes()) {
        return Ok(false);
    }
    let text = Text::from_bytes(alloc, text.as_bytes())?;
    let node = net.konst(word)?;
    list.push(NetName {
        text,
        width: word.width,
        place: Place::Node(node),
        output,
        words: None,
    })?;
    Ok(true)
}
