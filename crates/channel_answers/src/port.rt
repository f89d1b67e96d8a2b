//! Cases of binding a port. A case is a line: the number of channels, what is wanted (`i` for the probe of instruction
//! memory, `d` for that of data memory, `a` for aligned memory, `-` for none of them), and names of a design, each as
//! its text, `o` for an output and else `w`, its width, and its number in hexadecimal. The answer is what the nodes of
//! each channel show, in the order of the fields, and then those of the probes, or else the refusal.
#![tactic(auto, using(crate::proofs::Names::listed_none, crate::proofs::Names::listed_names))]

ghost use Rattle.std.specs.Prelude.{OnOk};
ghost use Rattle.channel_answers.specs.Listed.{AreListed};

use crate::design::put_name;
use crate::port_shown::{refused, shown};
use fv_text::{List, Memory, Word};
use rvfi_port::{Wants, bind};
use std::alloc::Global;
use wn_net::{Names, Net, NetName};

fn wants_of(text: &str) -> Wants {
    Wants {
        imem: text.contains('i'),
        dmem: text.contains('d'),
        aligned: text.contains('a'),
    }
}

/// What stands behind a name: whether it is an output, and its number.
fn number_of(
    kind: Option<&str>,
    width: Option<&str>,
    number: Option<&str>,
) -> Option<(bool, Word)> {
    let width = u32::from_str_radix(width?, 10).ok()?;
    let number = u128::from_str_radix(number?, 16).ok()?;
    let word = Word::new(width, number)?;
    Some((kind? == "o", word))
}

/// Adds the name that the word says. False where it says none, or one that is there.
fn put_word(
    alloc: Global,
    net: &mut Net,
    list: &mut List<NetName>,
    word: &str,
) -> Result<bool, Memory>
    requires { AreListed net.old list.old }
    ensures { OnOk result (AreListed net.new list.new) }
{
    let mut parts = word.split(':');
    let Some(text) = parts.next() else {
        return Ok(false);
    };
    match number_of(parts.next(), parts.next(), parts.next()) {
        Some((output, word)) => put_name(alloc, net, list, text, output, word),
        None => Ok(false),
    }
}

/// Adds the names that the words say, but for the first two.
fn put_words(
    alloc: Global,
    net: &mut Net,
    list: &mut List<NetName>,
    line: &str,
) -> Result<bool, Memory>
    requires { AreListed net.old list.old }
    ensures { OnOk result (AreListed net.new list.new) }
{
    let mut whole = true;
    for word in line.split(' ').skip(2) {
        if !put_word(alloc, net, list, word)? {
            whole = false;
        }
    }
    Ok(whole)
}

/// The answer to the case of a line: what the port shows of its design, the refusal, or that the line is no case.
pub fn answer(alloc: Global, line: &str) -> Result<String, Memory> {
    let mut words = line.split(' ');
    let channels = match words.next() {
        Some("2") => 2,
        _ => 1,
    };
    let wants = wants_of(words.next().unwrap_or(""));
    let mut net = Net::new(alloc);
    let mut list = List::new(alloc);
    if !put_words(alloc, &mut net, &mut list, line)? {
        return Ok(format!(in alloc; "no case {line:?}")?);
    }
    let names = Names {
        list,
        inputs: List::new(alloc),
        regs: List::new(alloc),
        mems: List::new(alloc),
    };
    match bind(alloc, &mut net, &names, channels, wants) {
        Ok(port) => shown(alloc, &net, &port),
        Err(fault) => refused(alloc, fault),
    }
}
