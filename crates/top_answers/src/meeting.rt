//! Whether the checks of a batch are judged beside each other.

use fv_base::{MemFiles, MemOut};
use rvf_core::{Status, run_gated};
use rvf_jobs::Gate;
use std::alloc::Global;
use std::sync::atomic::{AtomicBool, Ordering};
use std::thread::Threads;

/// The job with number 0 waits until that with number 1 has passed, for so many turns, and keeps whether it has.
#[derive(Drop)]
struct Meeting<'a> {
    has_passed: &'a AtomicBool,
    has_met: &'a AtomicBool,
}

impl Gate for Meeting<'_> {
    fn enter(&self, index: u32) {
        if index == 1 {
            self.has_passed.store(true, Ordering::SeqCst);
        }
        if index == 0 {
            for _ in 0..200_000_000u32 {
                if self.has_passed.load(Ordering::SeqCst) {
                    self.has_met.store(true, Ordering::SeqCst);
                    return;
                }
            }
        }
    }
}

/// How a run ends whose first check waits for the second one, and a line that says whether it met it.
pub(crate) fn run_to_meet<R: Threads + Sync>(
    rt: &R,
    alloc: Global,
    words: &[String],
    files: &mut MemFiles,
    out: &mut MemOut,
) -> (Status, &'static str) {
    let has_passed = AtomicBool::new(false);
    let has_met = AtomicBool::new(false);
    let gate = Meeting {
        has_passed: &has_passed,
        has_met: &has_met,
    };
    let status = run_gated(rt, alloc, words, files, out, &gate);
    if has_met.load(Ordering::SeqCst) {
        return (status, "met\n");
    }
    (status, "not met\n")
}
