use crate::judged::CertificateTexts;
use fv_text::Text;

/// What a check comes to by induction on the length of runs, with `k` steps.
#[derive(Debug, Drop)]
pub enum Induction {
    /// It looks at more than one cycle.
    Skipped,
    /// The value-change dump of a run that lacks its property in a cycle from 1 to `k`, up to the first one.
    Fails(Text),
    /// No run up to `k` lacks it so, and here is the dump of a step run of length `k`.
    Open(Text),
    /// Neither is there: no run of any length lacks it in a cycle from 1 on.
    Proved {
        base: CertificateTexts,
        step: CertificateTexts,
    },
    /// The budget is used up for the base.
    SpentBase(CertificateTexts),
    /// The base is refuted, and the budget is used up for the step.
    SpentStep(CertificateTexts),
}
