//! The lines of `[script-sources]`.

ghost use Rattle.std.specs.Prelude.{◌≡◌, option_map, OnOk};
ghost use Rattle.std.specs.List.{list_any};
ghost use Rattle.fv_lines.specs.Words.{words, begins_with};
ghost use Rattle.ck_cfg.specs.Faults.{Goes};
ghost use Rattle.ck_cfg.specs.Options.{is_among};
ghost use Rattle.ck_cfg.specs.Scripts.{script_options, names_behind, names_read, with_files, with_script};

use crate::fault::CfgFault;
use crate::reader::Reader;
use fv_lines::next_word;
use fv_text::{Memory, Text};
use std::alloc::Global;

impl Reader {
    /// A line of `[script-sources]`.
    pub(crate) fn take_script(
        &mut self,
        alloc: Global,
        line: u32,
        text: &[u8],
    ) -> Result<(), CfgFault>
        ensures { Goes self.new result (with_script self.old line (words text.now)) }
    {
        let Some(names) = names_read(text) else {
            return Err(CfgFault::Script { line });
        };
        self.take_files(alloc, names)?;
        Ok(())
    }

    /// Each word is the name of a file.
    fn take_files(&mut self, alloc: Global, names: &[u8]) -> Result<(), Memory>
        ensures { OnOk result (self.new ≡ with_files self.old (words names.now)) }
    {
        let mut rest = names;
        while let Some((name, behind)) = next_word(rest) {
            self.config.files.push(Text::from_bytes(alloc, name)?)?;
            rest = behind;
        }
        Ok(())
    }
}

/// The part of the line that has the names of the files that it reads.
fn names_read(text: &[u8]) -> Option<&[u8]>
    ensures { option_map (λ names. words names.now) result ≡ names_read (words text.now) }
{
    let (word, rest) = next_word(text)?;
    if word != b"read_verilog".as_slice() {
        return None;
    }
    names_behind(rest)
}

/// The names behind the options.
fn names_behind(text: &[u8]) -> Option<&[u8]>
    ensures { option_map (λ names. words names.now) result ≡ names_behind (words text.now) }
{
    let mut rest = text;
    while let Some((word, behind)) = next_word(rest) {
        if !is_option(word) {
            return if has_dash(rest) { None } else { Some(rest) };
        }
        rest = behind;
    }
    None
}

fn is_option(word: &[u8]) -> bool
    ensures { result ≡ is_among script_options word.now }
{
    match word {
        b"-sv" | b"-formal" => true,
        _ => false,
    }
}

/// Whether a word begins with `-`.
fn has_dash(text: &[u8]) -> bool
    ensures { result ≡ list_any (begins_with 45) (words text.now) }
{
    let mut rest = text;
    while let Some((word, behind)) = next_word(rest) {
        if begins_with_dash(word) {
            return true;
        }
        rest = behind;
    }
    false
}

fn begins_with_dash(word: &[u8]) -> bool
    ensures { result ≡ begins_with 45 word.now }
{
    match word {
        [] => false,
        [first, ..] => *first == b'-',
    }
}
