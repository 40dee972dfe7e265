//! The words of the program's line.
//!
//! `words` has `read_settings`, which answers the `Settings` that the words behind the program's name give, or why there are none.
//! Which words give which settings is the definition `IsWords` (specs/Words), and what of it is said to `clap` is `declared`
//! (specs/Options). `laws` says that words give one pair of settings alone.
#![tactic(auto)]

mod laws;
mod words;

pub use laws::words_have_one_meaning;
pub use words::{Settings, WordsError, read_settings};
