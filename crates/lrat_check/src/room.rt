ghost use Rattle.std.specs.Prelude.{◌≡◌, ◌+◌, ◌≤◌, OnOk, vec_len, vec_capacity};

use fv_text::Memory;

/// Makes room for so many more. It grows by a quarter, since what isn't filled is room that the clauses don't need.
pub(crate) fn make_room<T>(list: &mut Vec<T>, more: usize) -> Result<(), Memory>
    ensures items { list.new.items ≡ list.old.items }
    ensures len { vec_len list.new ≡ vec_len list.old }
    ensures room { OnOk result (vec_len list.new + more ≤ vec_capacity list.new) }
{
    if list.capacity() - list.len() < more {
        let quarter = list.len() / 4;
        list.reserve_exact(if more < quarter { quarter } else { more })?;
    }
    Ok(())
}
