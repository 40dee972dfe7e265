// A query, and what it compares with.
ghost use Rattle.std.specs.Prelude.{◌≡◌};
ghost use Rattle.xpath_parser.specs.Comparing.{literals_of, paths_compare};
ghost use Rattle.xpath_parser.specs.Shown.{paths_of};

use crate::query::Paths;
use plain_tree::Bytes;

/// A query. Its paths begin at the document.
#[derive(Drop)]
pub struct Query {
    pub paths: Paths,
    literals: Vec<Bytes>,
    ghost told: { literals.items ≡ literals_of (paths_of paths) },
}

impl Query {
    pub(crate) fn new(paths: Paths, literals: Vec<Bytes>) -> Query
        requires { literals.items ≡ literals_of (paths_of paths) }
        ensures { result.paths ≡ paths }
    {
        Query { paths, literals }
    }

    /// The values with which the query compares, in its order: a value that is compared with twice stands there twice. It takes no memory.
    pub fn literals(&self) -> &[Bytes]
        ensures { result.now ≡ literals_of (paths_of self.now.paths) }
    {
        self.literals.as_slice()
    }

    /// Whether a comparison stands in the query. It takes no memory.
    pub fn compares(&self) -> bool
        ensures { result ≡ paths_compare (paths_of self.now.paths) }
    {
        !self.literals().is_empty()
    }
}
