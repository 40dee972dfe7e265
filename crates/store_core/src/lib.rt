//! The session: one document and the commands that read, change and write it.
//!
//! `Session::command` is one step of the plain tree machine (specs/Machine): what the command prints, what it leaves of the
//! session and of the shelf's files. The document is held as a `Store`. Commands are in `loading`, `generating`, `saving`,
//! `showing`, `showing_all`, `repairing`, `repairing_wide`, `selecting`, `checking`, `editing` and `bulk_editing`; files are read whole in
//! `file_reading`, the walk over a node is in `walking`, what it writes in `writing`, and what is held back of that until it is some
//! kilobytes in `gathered`; `refreshing` is for grammars that edits have worn;
//! `doing` is what a session does for each; `answer` has the lines that commands print.
#![tactic(auto)]

mod answer;
mod bulk_editing;
mod checking;
mod command;
mod doing;
mod editing;
mod file_reading;
mod gathered;
mod generating;
mod grammar_loading;
mod listing;
mod loaded;
mod loading;
mod reading;
mod refreshing;
mod repairing;
mod repairing_wide;
mod saving;
mod selecting;
mod session;
mod showing;
mod showing_all;
mod walking;
mod writing;

pub use answer::{Answer, Refusal};
pub use command::Command;
pub use loaded::Loaded;
pub use session::{Session, SinkFailed};
pub use store_words::Settings;
pub use tree_updates::Store;
