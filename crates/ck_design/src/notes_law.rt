ghost use Rattle.ck_design.specs.NotesForm.{NotesAreInForm};
ghost use Rattle.ck_design.specs.Tight.{CertificatesAreTight};

/// The models of a certificate's clauses before the last are the runs of the design, seen at the notes, and its last
/// clause demands a run that gives what is sought.
pub fn certificates_are_tight()
    ensures { CertificatesAreTight }
{}

/// The notes of a certificate stand in their form: chosen bits by rising variables, then the bits of the fields.
pub fn notes_are_in_form()
    ensures { NotesAreInForm }
{}
