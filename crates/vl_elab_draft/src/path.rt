//! Paths: what stands before the names of a scope.
ghost use Rattle.std.specs.Prelude.{◌≡◌, ◌++◌, [], reverse, IfOk, OnOk};

use fv_text::{Memory, Text};
use std::alloc::Global;
use std::marker::Model;
use std::rc::Rc;

/// A text of so many bytes stays as it is, and what stands behind it is a text of its own.
const LONG: usize = 64;

/// What stands before the names of a scope (IEEE 1364-2005, section 12.5), seen as its text: a text alone, or one that
/// isn't empty behind a path of a scope around, which is shared. So a path takes as much memory as the names of some
/// scopes around, however deep it stands.
#[cycle(path)]
#[derive(Drop)]
pub struct Path {
    around: Option<Rc<Path>>,
    own: Text,
}

impl Model for Path {
    ghost use Rattle.std.specs.Prelude.{List, ℕ, length};
    ghost use Rattle.std.specs.Option.{option_map};
    ghost use Rattle.vl_elab_draft.specs.Linked.{text_behind, IsLinked};

    ghost Value = { List ℕ };

    ghost view = { λ p. text_behind (option_map (λ r. r.value) p.around) p.own };

    ghost invariant = { λ p. IsLinked (option_map (λ r. r.value) p.around) p.own };

    ghost size = { length };

    ghost use Rattle.std.proofs.Common.{arith, length-append};

    ghost size_decreases = { λ p h. Prim.grind (arith, length-append) };
}

impl Path {
    /// That of the top module, whose name stays out of full names.
    pub fn top(alloc: Global) -> Path
        ensures { result ≡ [] }
    {
        Path {
            around: None,
            own: Text::from_vec(Vec::new(alloc)),
        }
    }

    /// The same path, which shares what is around.
    pub fn copied(&self, alloc: Global) -> Result<Path, Memory>
        ensures { IfOk result (λ path. path ≡ self.now) }
    {
        let own = self.own.copied(alloc)?;
        match &self.around {
            None => Ok(Path { around: None, own }),
            Some(around) => {
                let around = Some(around.clone()?);
                Ok(Path { around, own })
            }
        }
    }

    /// The path with a text behind it. Where the last text is long, this path is shared, so that no text is copied each
    /// time that one stands behind it; else few paths are to be followed from a name to the top.
    pub fn behind(&self, alloc: Global, more: Text) -> Result<Path, Memory>
        ensures { IfOk result (λ path. path ≡ self.now ++ more) }
    {
        if self.own.len() < LONG || more.bytes().is_empty() {
            let own = joined(alloc, &self.own, &more)?;
            match &self.around {
                None => Ok(Path { around: None, own }),
                Some(around) => {
                    let around = Some(around.clone()?);
                    Ok(Path { around, own })
                }
            }
        } else {
            let around = self.copied(alloc)?;
            let around = Some(Rc::new(alloc, around)?);
            Ok(Path { around, own: more })
        }
    }

    /// The full name of a name in the scope.
    pub(crate) fn joined(&self, alloc: Global, name: &Text) -> Result<Text, Memory>
        ensures { IfOk result (λ text. text ≡ self.now ++ name.now) }
    {
        match &self.around {
            None => joined(alloc, &self.own, name),
            Some(_) => joined(alloc, &self.text(alloc)?, name),
        }
    }

    /// The text itself.
    fn text(&self, alloc: Global) -> Result<Text, Memory>
        ensures { IfOk result (λ text. text ≡ self.now) }
    {
        let mut bytes = self.from_end(alloc)?;
        bytes.reverse();
        Ok(Text::from_vec(bytes))
    }

    /// The text from its end on. Paths are as deep as modules stand in one another.
    fn from_end(&self, alloc: Global) -> Result<Vec<u8>, Memory>
        ensures { IfOk result (λ bytes. bytes.items ≡ reverse self.now) }
    {
        let mut bytes = Vec::new(alloc);
        let mut path = self;
        while let Some(around) = &path.around {
            push_from_end(path.own.bytes(), &mut bytes)?;
            path = around.as_ref();
        }
        push_from_end(path.own.bytes(), &mut bytes)?;
        Ok(bytes)
    }
}

/// Adds bytes from the last one on.
fn push_from_end(all: &[u8], bytes: &mut Vec<u8>) -> Result<(), Memory>
    ensures { OnOk result (bytes.new.items ≡ bytes.old.items ++ reverse all.now) }
{
    let mut rest = all;
    while let Some((last, front)) = rest.split_last() {
        bytes.push(*last)?;
        rest = front;
    }
    Ok(())
}

/// One text behind the other.
fn joined(alloc: Global, first: &Text, second: &Text) -> Result<Text, Memory>
    ensures { IfOk result (λ text. text ≡ first.now ++ second.now) }
{
    let mut bytes = Vec::from_slice(alloc, first.bytes())?;
    bytes.extend_from_slice(second.bytes())?;
    Ok(Text::from_vec(bytes))
}
