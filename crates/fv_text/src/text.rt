ghost use Rattle.std.specs.Prelude.{◌≡◌, ◌↔◌, length, IsTrue, IfOk};

use crate::held::Held;
use crate::memory::Memory;
use std::alloc::Global;
use std::marker::Model;
use std::sync::Arc;

/// Bytes, seen as the list of them. They need not be text in any encoding. The copies of a shared text are held once.
#[derive(Debug, Drop)]
pub struct Text {
    bytes: Held,
}

impl Model for Text {
    ghost use Rattle.std.specs.Prelude.{List, ℕ};
    ghost use Rattle.fv_text.specs.Held.{held};

    ghost Value = { List ℕ };

    ghost view = { λ t. held t.bytes };
}

impl Text {
    /// A copy of the bytes.
    pub fn from_bytes(alloc: Global, bytes: &[u8]) -> Result<Text, Memory>
        ensures { IfOk result (λ text. text ≡ bytes.now) }
    {
        Ok(Text::from_vec(Vec::from_slice(alloc, bytes)?))
    }

    /// The bytes themselves, without a copy.
    pub fn from_vec(bytes: Vec<u8>) -> Text
        ensures { result ≡ bytes.items }
    {
        Text {
            bytes: Held::Alone(bytes),
        }
    }

    /// The same text, whose bytes are held once from now on, however often it is copied.
    pub fn shared(self, alloc: Global) -> Result<Text, Memory>
        ensures { IfOk result (λ text. text ≡ self) }
    {
        let Text { bytes } = self;
        match bytes {
            Held::Alone(bytes) => Ok(Text {
                bytes: Held::Shared(Arc::new(alloc, bytes)?),
            }),
            Held::Shared(bytes) => Ok(Text {
                bytes: Held::Shared(bytes),
            }),
        }
    }

    pub fn bytes(&self) -> &[u8]
        ensures { result.now ≡ self.now }
    {
        match &self.bytes {
            Held::Alone(bytes) => bytes.as_slice(),
            Held::Shared(bytes) => bytes.as_slice(),
        }
    }

    /// The bytes themselves, of a shared text a copy.
    pub fn into_vec(self) -> Result<Vec<u8>, Memory>
        ensures { IfOk result (λ bytes. bytes.items ≡ self) }
    {
        let Text { bytes } = self;
        match bytes {
            Held::Alone(bytes) => Ok(bytes),
            Held::Shared(bytes) => Ok(Vec::from_slice(*bytes.allocator(), bytes.as_slice())?),
        }
    }

    pub fn len(&self) -> usize
        ensures { result ≡ length self.now }
    {
        self.bytes().len()
    }

    /// Whether the text has exactly these bytes.
    pub fn is(&self, bytes: &[u8]) -> bool
        ensures { IsTrue result ↔ (self.now ≡ bytes.now) }
    {
        self.bytes() == bytes
    }

    pub fn copied(&self, alloc: Global) -> Result<Text, Memory>
        ensures { IfOk result (λ text. text ≡ self.now) }
    {
        match &self.bytes {
            Held::Alone(bytes) => Text::from_bytes(alloc, bytes.as_slice()),
            Held::Shared(bytes) => Ok(Text {
                bytes: Held::Shared(bytes.clone()?),
            }),
        }
    }
}
