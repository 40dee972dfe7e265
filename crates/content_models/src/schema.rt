// A schema: the models that it gives to names.
ghost use Rattle.std.specs.Prelude.{◌≡◌, ◌≤◌, [], length, reverse};
ghost use Rattle.content_models.specs.Matching.{places};
ghost use Rattle.content_models.specs.Postfix.{code_on, model_of_code};

use crate::postfix::Op;
use plain_tree::Bytes;

/// A name, and the code of its model.
#[derive(Drop)]
pub(crate) struct Declaration {
    pub name: Bytes,
    pub code: Vec<Op>,
    ghost exact: { reverse code.items ≡ code_on (model_of_code (reverse code.items)) [] },
    ghost few: { places (model_of_code (reverse code.items)) ≤ 64 },
}

/// The models of a schema, within its limits.
#[derive(Drop)]
pub struct Schema {
    pub(crate) declarations: Vec<Declaration>,
    ghost few: { length declarations.items ≤ 64 },
}
