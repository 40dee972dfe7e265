//! Queries: a profile of XPath 1.0, from bytes to a query with its abbreviations written out.
//!
//! `parse` answers a `Query`, or says why there is none. Names and white space (`spelling`) are cut into tokens (`token`,
//! `tokens`). A machine with a stack of its own (`machine`) is fed one token after another (`reading`) and writes postfix code
//! (`postfix`), which is kept within the limits only: so whatever is bad or large makes no tree and takes no stack. From the code
//! the query is built (`building`, `query`, `parsed`) with the values that it compares with (`literals`), and `display` writes it out.
#![tactic(auto)]

mod building;
mod display;
mod error;
mod laws;
mod literals;
mod machine;
mod parsed;
mod parsing;
mod postfix;
mod query;
mod reading;
mod spelling;
mod token;
mod tokens;

pub use error::QueryError;
pub use laws::{names_are_qnames, spells_one};
pub use parsed::Query;
pub use parsing::parse;
pub use query::{Axis, Filter, Filters, Path, Paths, QueryStep, QuerySteps, Test};
