use fv_text::Text;

/// The two files of a certificate.
#[derive(Debug, Drop)]
pub struct CertificateTexts {
    /// Clauses with notes, in the DIMACS format.
    pub clauses: Text,
    /// Steps over these clauses, in the LRAT format.
    pub steps: Text,
}

/// What a question comes to.
#[derive(Debug, Drop)]
pub enum Judged {
    /// No run gives what is sought: the steps refute the clauses.
    Never(CertificateTexts),
    /// The value-change dump of a run that gives it.
    Found(Text),
    /// The budget is used up: the steps derive as many clauses.
    Spent(CertificateTexts),
}
