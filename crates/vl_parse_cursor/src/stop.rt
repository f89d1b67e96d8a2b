//! Why reading stops.

ghost use Rattle.std.specs.Prelude.{◌++◌, ◌∷◌, [], ◌≡◌, IfErr, OnOk};
ghost use Rattle.vl_parse_cursor.specs.Goes.{IsMemory};

use fv_text::{List, Memory};

/// Why reading stops, with the number of tokens from the faulty one on.
#[derive(Debug, Clone, Copy)]
pub enum Stop {
    Wrong(usize),
    TooDeep(usize),
    Memory,
}

impl From<Memory> for Stop {
    fn from(_fault: Memory) -> Stop {
        Stop::Memory
    }
}

/// Adds the item at the end.
pub fn add<T: Drop>(items: &mut List<T>, item: T) -> Result<(), Stop>
    ensures added { OnOk result (items.new ≡ items.old ++ item ∷ []) }
    ensures memory { IfErr result (λ e. IsMemory e) }
{
    match items.push(item) {
        Ok(()) => Ok(()),
        Err(_) => Err(Stop::Memory),
    }
}
