// What a query is, with its abbreviations written out.
ghost use Rattle.std.specs.Prelude.{◌≡◌, OnOk, length, slice_get};
ghost use Rattle.xpath_parser.specs.Shown.{test_of, filters_of, filter_of, paths_of, steps_of, path_list, step_list, filter_list, SeesPath, SeesStep, SeesFilter};
ghost use Rattle.xpath_parser.specs.Queries.{no_paths, no_steps, no_filters, with_path, with_step, with_filter, filtered};

use plain_tree::Bytes;
use std::alloc::{AllocError, Global};

/// Where a step goes from a node (XPath 1.0, 2.2).
#[derive(Clone, Copy, Debug, PartialEq, Eq)]
pub enum Axis {
    Child,
    Descendant,
    DescendantOrSelf,
    SelfNode,
    FollowingSibling,
    Attribute,
}

/// What a step asks of a node (XPath 1.0, 2.3): a name, or one of `*`, `node()`, `text()`, `comment()` and
/// `processing-instruction()`.
#[derive(Drop)]
pub enum Test {
    Star,
    Name(Bytes),
    AnyNode,
    TextNode,
    CommentNode,
    InstructionNode,
}

/// A step: the nodes of the axis that pass the test and for which each filter is true.
#[cycle(query)]
#[derive(Drop)]
pub struct QueryStep {
    pub axis: Axis,
    pub test: Test,
    pub filters: Filters,
}

/// The steps of a path, one after the other. No step is the document itself.
#[cycle(query)]
#[derive(Drop)]
pub struct QuerySteps {
    pub(crate) steps: Vec<QueryStep>,
}

#[cycle(query)]
#[derive(Drop)]
pub struct Path {
    pub steps: QuerySteps,
}

/// The paths between which `|` stands.
#[cycle(query)]
#[derive(Drop)]
pub struct Paths {
    pub(crate) paths: Vec<Path>,
}

/// What is true or false of a node (XPath 1.0, 2.4 and 3.4). Paths are true where they lead to some node. A comparison is true where
/// some child is a text with the value, or some attribute has the name and the value.
#[cycle(query)]
#[derive(Drop)]
pub enum Filter {
    Or(Box<Filter>, Box<Filter>),
    And(Box<Filter>, Box<Filter>),
    Not(Box<Filter>),
    True,
    False,
    Exists(Paths),
    TextIs(Bytes),
    AttributeIs(Bytes, Bytes),
}

/// The filters of a step.
#[cycle(query)]
#[derive(Drop)]
pub struct Filters {
    pub(crate) filters: Vec<Filter>,
}

impl Paths {
    /// How many paths there are.
    pub fn len(&self) -> usize
        ensures { result ≡ length (path_list (paths_of self.now)) }
    {
        self.paths.len()
    }

    /// The path at a place from 0 on, and None exactly where the place isn't below the length.
    pub fn get(&self, at: usize) -> Option<&Path>
        ensures { SeesPath result (slice_get (path_list (paths_of self.now)) at) }
    {
        self.paths.get(at)
    }

    /// No path.
    pub(crate) fn new(alloc: Global) -> Paths
        ensures { paths_of result ≡ no_paths }
    {
        Paths {
            paths: Vec::new(alloc),
        }
    }

    /// Adds a path at the end.
    pub(crate) fn push(&mut self, steps: QuerySteps) -> Result<(), AllocError>
        ensures { OnOk result (paths_of self.new ≡ with_path (paths_of self.old) (steps_of steps)) }
    {
        self.paths.push(Path { steps })?;
        Ok(())
    }
}

impl QuerySteps {
    /// How many steps there are.
    pub fn len(&self) -> usize
        ensures { result ≡ length (step_list (steps_of self.now)) }
    {
        self.steps.len()
    }

    /// The step at a place from 0 on, and None exactly where the place isn't below the length.
    pub fn get(&self, at: usize) -> Option<&QueryStep>
        ensures { SeesStep result (slice_get (step_list (steps_of self.now)) at) }
    {
        self.steps.get(at)
    }

    /// No step.
    pub(crate) fn new(alloc: Global) -> QuerySteps
        ensures { steps_of result ≡ no_steps }
    {
        QuerySteps {
            steps: Vec::new(alloc),
        }
    }

    /// Adds a step with no filter at the end.
    pub(crate) fn push(&mut self, alloc: Global, axis: Axis, test: Test) -> Result<(), AllocError>
        ensures { OnOk result (steps_of self.new ≡ with_step (steps_of self.old) axis (test_of test) no_filters) }
    {
        self.steps.push(QueryStep {
            axis,
            test,
            filters: Filters::new(alloc),
        })?;
        Ok(())
    }

    /// Adds a filter to the last step.
    pub(crate) fn filter(&mut self, filter: Filter) -> Result<(), AllocError>
        ensures { OnOk result (steps_of self.new ≡ filtered (steps_of self.old) (filter_of filter)) }
    {
        if let Some(mut step) = self.steps.pop() {
            step.filters.push(filter)?;
            self.steps.push(step)?;
        }
        Ok(())
    }
}

impl Filters {
    /// How many filters there are.
    pub fn len(&self) -> usize
        ensures { result ≡ length (filter_list (filters_of self.now)) }
    {
        self.filters.len()
    }

    /// The filter at a place from 0 on, and None exactly where the place isn't below the length.
    pub fn get(&self, at: usize) -> Option<&Filter>
        ensures { SeesFilter result (slice_get (filter_list (filters_of self.now)) at) }
    {
        self.filters.get(at)
    }

    fn new(alloc: Global) -> Filters
        ensures { filters_of result ≡ no_filters }
    {
        Filters {
            filters: Vec::new(alloc),
        }
    }

    /// Adds a filter at the end.
    fn push(&mut self, filter: Filter) -> Result<(), AllocError>
        ensures { OnOk result (filters_of self.new ≡ with_filter (filters_of self.old) (filter_of filter)) }
    {
        self.filters.push(filter)?;
        Ok(())
    }
}
