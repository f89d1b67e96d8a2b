//! What no clause says: that a batch is answered with ample memory, and that its jobs run beside each other.

ghost use Rattle.std.specs.Prelude.{◌+◌, ◌<◌, ◌^◌};

use fv_text::Memory;
use rvf_jobs::{Gate, Job, OpenGate, run_jobs};
use std::alloc::Global;
use std::sync::atomic::{AtomicBool, Ordering};
use std::test::Fail;
use std::thread::Threads;

/// The job with a number answers ten times the number, and the length of a batch may be seen in the answers.
#[derive(Clone, Copy)]
struct Tens;

impl Job for Tens {
    type Answer = u64;

    ghost is_answer = { λ job index answer. Unit {0} };

    fn work(&self, _alloc: Global, index: u32) -> Result<u64, Memory> {
        Ok(u64::from(index).wrapping_mul(10))
    }
}

/// Job 0 waits until job 3 has run, for so many turns, and answers whether it has. The others answer yes.
#[derive(Clone, Copy)]
struct Meeting<'a> {
    seen: &'a AtomicBool,
}

impl Job for Meeting<'_> {
    type Answer = bool;

    ghost is_answer = { λ job index answer. Unit {0} };

    fn work(&self, _alloc: Global, index: u32) -> Result<bool, Memory> {
        OpenGate.enter(index);
        if index == 3 {
            self.seen.store(true, Ordering::SeqCst);
        }
        if index == 0 {
            for _ in 0..200_000_000u32 {
                if self.seen.load(Ordering::SeqCst) {
                    return Ok(true);
                }
            }
            return Ok(false);
        }
        Ok(true)
    }
}

/// The job with number 2 has no memory.
#[derive(Clone, Copy)]
struct Wanting;

impl Job for Wanting {
    type Answer = u64;

    ghost is_answer = { λ job index answer. Unit {0} };

    fn work(&self, _alloc: Global, index: u32) -> Result<u64, Memory> {
        if index == 2 {
            return Err(Memory);
        }
        Ok(u64::from(index))
    }
}

fn answers_from<R: Threads + Sync>(
    rt: &R,
    alloc: Global,
    first: u32,
    count: u32,
) -> Result<Vec<u64>, Memory>
    requires { first + count < 2 ^ 32 }
{
    run_jobs(rt, alloc, &Tens, first, count)
}

#[test]
fn batches(rt: HostRuntime) -> Result<(), Fail> {
    let alloc = rt.alloc();
    assert!(rt; answers_from(&rt, alloc, 7, 0)?.is_empty());
    assert_eq!(rt; answers_from(&rt, alloc, 7, 1)?.as_slice(), [70].as_slice());
    let all = answers_from(&rt, alloc, 5, 64)?;
    assert_eq!(rt; all.len(), 64);
    for (place, answer) in all.iter().enumerate() {
        assert_eq!(rt; *answer, 10 * (place as u64 + 5));
    }
    Ok(())
}

#[test]
fn jobs_run_beside_each_other(rt: HostRuntime) -> Result<(), Fail> {
    let seen = AtomicBool::new(false);
    let answers = run_jobs(&rt, rt.alloc(), &Meeting { seen: &seen }, 0, 4)?;
    assert_eq!(rt; answers.as_slice(), [true, true, true, true].as_slice());
    Ok(())
}

#[test]
fn a_job_without_memory(rt: HostRuntime) -> Result<(), Fail> {
    let alloc = rt.alloc();
    assert!(rt; run_jobs(&rt, alloc, &Wanting, 0, 4).is_err());
    assert_eq!(rt;
        run_jobs(&rt, alloc, &Wanting, 3, 2)?.as_slice(),
        [3, 4].as_slice()
    );
    Ok(())
}
