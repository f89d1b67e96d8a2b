//! The lines of `[options]`.

ghost use Rattle.std.specs.Prelude.{◌≡◌, MatchOption, [], ◌∷◌, List, ℕ};
ghost use Rattle.fv_lines.specs.Words.{words};
ghost use Rattle.ck_cfg.specs.Faults.{Goes};
ghost use Rattle.ck_cfg.specs.Options.{is_among, idle_keys, once, with_isa, with_nret, with_option};

use crate::channels::nret_named;
use crate::fault::CfgFault;
use crate::isa::isa_named;
use crate::reader::{Reader, is_among};
use fv_lines::next_word;
use fv_text::Text;
use std::alloc::Global;

impl Reader {
    /// A line of `[options]`.
    pub(crate) fn take_option(
        &mut self,
        alloc: Global,
        line: u32,
        text: &[u8],
    ) -> Result<(), CfgFault>
        ensures { Goes self.new result (with_option self.old line (words text.now)) }
    {
        let Some((key, values)) = next_word(text) else {
            let key = Text::from_vec(Vec::new(alloc));
            return Err(CfgFault::Option { line, key });
        };
        if key == b"isa".as_slice() {
            return self.take_isa(alloc, line, key, values);
        }
        if key == b"nret".as_slice() {
            return self.take_nret(alloc, line, key, values);
        }
        if is_idle(key) {
            return self.take_key(alloc, line, key);
        }
        let key = Text::from_bytes(alloc, key)?;
        Err(CfgFault::Option { line, key })
    }

    /// The key, unless it stands there for the second time.
    fn take_key(&mut self, alloc: Global, line: u32, key: &[u8]) -> Result<(), CfgFault>
        ensures { Goes self.new result (once self.old line key.now) }
    {
        let key = Text::from_bytes(alloc, key)?;
        if is_among(self.keys.as_slice(), key.bytes()) {
            return Err(CfgFault::Twice { line, key });
        }
        self.keys.push(key)?;
        Ok(())
    }

    fn take_isa(
        &mut self,
        alloc: Global,
        line: u32,
        key: &[u8],
        values: &[u8],
    ) -> Result<(), CfgFault>
        ensures { Goes self.new result (with_isa self.old line key.now (words values.now)) }
    {
        let Some(value) = lone_word(values) else {
            let key = Text::from_bytes(alloc, key)?;
            return Err(CfgFault::Option { line, key });
        };
        let Some(isa) = isa_named(value) else {
            let text = Text::from_bytes(alloc, value)?;
            return Err(CfgFault::Isa { line, text });
        };
        self.config.isa = isa;
        self.take_key(alloc, line, key)
    }

    fn take_nret(
        &mut self,
        alloc: Global,
        line: u32,
        key: &[u8],
        values: &[u8],
    ) -> Result<(), CfgFault>
        ensures { Goes self.new result (with_nret self.old line key.now (words values.now)) }
    {
        let Some(value) = lone_word(values) else {
            let key = Text::from_bytes(alloc, key)?;
            return Err(CfgFault::Option { line, key });
        };
        self.take_key(alloc, line, key)?;
        if nret_named(value).is_none() {
            return Err(CfgFault::Nret { line });
        }
        Ok(())
    }
}

/// Whether the key is accepted without effect.
fn is_idle(key: &[u8]) -> bool
    ensures { result ≡ is_among idle_keys key.now }
{
    match key {
        b"solver" | b"append" | b"abspath" | b"dumpsmt2" => true,
        _ => false,
    }
}

/// The word, if there is one alone.
pub(crate) fn lone_word(text: &[u8]) -> Option<&[u8]>
    ensures { MatchOption result ((word : List ℕ) → words text.now ≡ word ∷ [] → ⊥)
        (λ word. words text.now ≡ word.now ∷ []) }
{
    let (word, rest) = next_word(text)?;
    if next_word(rest).is_some() {
        return None;
    }
    Some(word)
}
