ghost use Rattle.std.specs.Prelude.{◌≡◌, ◌<◌, length, IfOk};
ghost use Rattle.cnf_form.specs.Flat.{end_at, Mounting};
ghost use Rattle.lrat_check.specs.Store.{packed, packed_starts};

use cnf_form::end_of;
use fv_text::Memory;
use std::alloc::Global;

/// Where the held clauses begin once they lie one behind the other, if all end there.
pub(crate) fn packed_starts(
    alloc: Global,
    starts: &[u32],
    held: &[bool],
    end: usize,
) -> Result<Vec<u32>, Memory>
    requires mounting { Mounting starts.now end }
    requires marked { length held.now ≡ length starts.now }
    ensures { IfOk result (λ packed. packed.items ≡ packed_starts starts.now held.now end 0) }
{
    let many = held.iter().filter(|is_held| **is_held).count();
    let mut packed = Vec::with_capacity(alloc, many)?;
    let mut from = 0;
    for (place, is_held) in held.iter().enumerate() {
        if *is_held {
            packed.push(from as u32)?;
            from += end_of(starts, place, end) - starts[place] as usize;
        }
    }
    Ok(packed)
}

/// Leaves out the codes of the clauses that aren't held.
pub(crate) fn pack_codes(codes: &mut Vec<u64>, starts: &[u32], held: &[bool])
    requires mounting { Mounting starts.now (length codes.old.items) }
    requires marked { length held.now ≡ length starts.now }
    ensures { codes.new.items ≡ packed codes.old.items starts.now held.now }
{
    let all = codes.len();
    let mut to = 0;
    for (place, is_held) in held.iter().enumerate() {
        if *is_held {
            let start = starts[place] as usize;
            let end = end_of(starts, place, all);
            codes.copy_within(start..end, to);
            to += end - start;
        }
    }
    codes.truncate(to);
}
