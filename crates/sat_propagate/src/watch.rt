ghost use Rattle.std.specs.Prelude.{◌≡◌, IfOk};
ghost use Rattle.sat_propagate.specs.Watching.{watch_at};

use fv_text::Memory;

/// An entry of a literal's list: a clause in which it may be watched, and the code of another literal of the clause.
#[derive(Debug, Clone, Copy)]
pub(crate) struct Watch {
    pub id: u32,
    pub blocker: u32,
}

/// The only error is want of memory: each code has a list and each id a row, so that where one of them needs more than
/// 32 bits these alone would take tens of gigabytes.
pub(crate) fn watch_of(id: u64, blocker: u64) -> Result<Watch, Memory>
    ensures { IfOk result (λ w. w ≡ watch_at id blocker) }
{
    if id > u32::MAX as u64 || blocker > u32::MAX as u64 {
        return Err(Memory);
    }
    Ok(Watch {
        id: id as u32,
        blocker: blocker as u32,
    })
}
