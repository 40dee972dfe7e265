// The laws of lines and forms, each on a public call that does nothing.
ghost use Rattle.store_shell.specs.Laws.{CutsOne, LinesAreFew, HasOneForm, RunsStayLawful};

/// Bytes are cut into lines and a tail in one way alone.
pub fn cuts_one()
    ensures { CutsOne }
{}

/// No more lines end than there are bytes.
pub fn lines_are_few()
    ensures { LinesAreFew }
{}

/// A line has one form alone.
pub fn has_one_form()
    ensures { HasOneForm }
{}

/// A run of the plain tree machine from a lawful state leaves a lawful state.
pub fn runs_stay_lawful()
    ensures { RunsStayLawful }
{}
