//! Content models: which elements of a document have children that a schema doesn't allow, found on its rules.
//!
//! `read_schema` answers the `Schema` that bytes spell, or says why there is none. A schema is lines (`reading`, `schema`), each of which
//! gives a model to a name (`line_reading`): its tokens (`token`, `tokens`) are fed to a machine with a stack of its own (`machine`,
//! `model_reading`), which writes postfix code (`postfix`). So no model makes a tree, however deep. `Schema::compile` makes a `Checker` of
//! it for a table of names (`compile`): a pass forward over a model's code finds where its parts begin, and one backward where reading can
//! go on behind each of its names (`compiling`, `ways`).
//!
//! A chain of siblings is read from its end. A state (`Chain`) tells from which places of the models the rest of their names can be read
//! to the end: places of the name at the front, so that a word of their bits is enough (`states`, `sets`, `marking`). A `Checker` is an
//! automaton of slt_grammar, whose runs hit the wrong elements.
#![tactic(auto)]

mod checker;
mod compile;
mod compiling;
mod error;
mod laws;
mod line_reading;
mod machine;
mod marking;
mod model_reading;
mod postfix;
mod reading;
mod schema;
mod sets;
mod sorts;
mod states;
mod token;
mod tokens;
mod ways;

pub use checker::Checker;
pub use error::SchemaError;
pub use laws::{names_are_names, spells_one, wrong_one};
pub use reading::read_schema;
pub use schema::Schema;
pub use sets::Sets;
pub use states::{Chain, OneState};
