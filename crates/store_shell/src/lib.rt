//! The shell: it reads a script line by line, does each line's command by the settings that the words give, and writes its text.
//!
//! `line` gathers a line's bytes, `parse` reads what a line asks for, and `script` has `serve`, the top call. Its contract
//! (specs/Serving) says that what is written and what is left are those of a run of the plain tree machine by these settings over the
//! script's lines up to the first `quit` (specs/Lines, specs/Forms, specs/Runs), and at each fault which lines are done.
//! `laws` says that lines and forms are determined.
#![tactic(auto)]

mod laws;
mod line;
mod parse;
mod script;
mod status;
mod verb;

pub use laws::{cuts_one, has_one_form, lines_are_few, runs_stay_lawful};
pub use script::serve;
pub use status::Status;
