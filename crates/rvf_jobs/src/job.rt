ghost use Rattle.std.specs.Prelude.{ℕ, IfOk};

use fv_text::Memory;
use std::alloc::Global;

/// Jobs by number, which any thread may do.
pub trait Job: Sync {
    type Answer: Send + Drop;

    /// Whether the value is an answer of the job with the number.
    ghost is_answer: { Self → ℕ → Self.Answer → Type 0 };

    /// What has to hold for a job to be done.
    ghost can_work: { Self → Type 0 } = { λ _. Unit {0} };

    /// Does the job with the number.
    fn work(&self, alloc: Global, index: u32) -> Result<Self::Answer, Memory>
        requires { can_work self.now }
        ensures { IfOk result (λ answer. is_answer self.now index answer) };
}
