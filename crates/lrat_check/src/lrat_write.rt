ghost use Rattle.std.specs.Prelude.{◌≡◌, ◌++◌, flat_map, IfOk, OnOk};
ghost use Rattle.lrat_check.specs.Texts.{id_text, step_text, lrat_text, ReadsBack};

use crate::step::Step;
use cnf_text::put_literals;
use fv_text::Memory;
use itoa::Buffer;
use std::alloc::Global;

/// The text of the steps, one a line.
pub fn lrat(alloc: Global, steps: &[Step]) -> Result<Vec<u8>, Memory>
    ensures text { IfOk result (λ bytes. bytes.items ≡ lrat_text steps.now) }
    ensures read_back { IfOk result (λ bytes. ReadsBack steps.now bytes.items) }
{
    let mut out = Vec::new(alloc);
    for step in steps {
        put_step(&mut out, step)?;
    }
    Ok(out)
}

fn put_step(out: &mut Vec<u8>, step: &Step) -> Result<(), Memory>
    ensures { OnOk result (out.new.items ≡ out.old.items ++ step_text step.now) }
{
    match step {
        Step::Add { id, lits, hints } => {
            put_id(out, id)?;
            put_literals(out, lits.as_slice())?;
            out.extend_from_slice(b"0 ")?;
            put_literals(out, hints.as_slice())?;
            out.extend_from_slice(b"0\n")?;
            Ok(())
        }
        Step::Delete { id, ids } => {
            put_id(out, id)?;
            out.extend_from_slice(b"d ")?;
            put_ids(out, ids.as_slice())?;
            out.extend_from_slice(b"0\n")?;
            Ok(())
        }
    }
}

/// The id with a blank behind it.
fn put_id(out: &mut Vec<u8>, id: &u64) -> Result<(), Memory>
    ensures { OnOk result (out.new.items ≡ out.old.items ++ id_text id.now) }
{
    let mut buffer = Buffer::new();
    out.extend_from_slice(buffer.format(*id).as_bytes())?;
    out.push(b' ')?;
    Ok(())
}

fn put_ids(out: &mut Vec<u8>, ids: &[u64]) -> Result<(), Memory>
    ensures { OnOk result (out.new.items ≡ out.old.items ++ flat_map id_text ids.now) }
{
    for id in ids {
        put_id(out, id)?;
    }
    Ok(())
}
