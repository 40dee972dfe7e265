// A query from its postfix code. Code within the limits makes no tree that is deep.
ghost use Rattle.std.specs.Prelude.{◌≡◌, ◌∷◌, [], IfOk, OnOk, reverse, map, take, drop, get_or};
ghost use Rattle.xpath_parser.specs.Queries as queries;
ghost use Rattle.xpath_parser.specs.Shown.{test_of, filter_of, paths_of, steps_of};
ghost use Rattle.xpath_parser.specs.Meant.{named, told, compared};
ghost use Rattle.xpath_parser.specs.Building.{top, no_search, whole, applied, built};
ghost use Rattle.xpath_parser.specs.Building.{truths_of, searches_of, search_of, building_of};

use crate::literals::part;
use crate::postfix::{Op, Side};
use crate::query::{Axis, Filter, Paths, QuerySteps, Test};
use crate::token::{Asked, Operand, Span};
use plain_tree::Bytes;
use std::alloc::{AllocError, Global};
use std::mem;

/// Paths that are being built, and the steps of the path that is.
#[derive(Drop)]
pub(crate) struct OpenSearch {
    paths: Paths,
    steps: QuerySteps,
}

impl OpenSearch {
    ghost use Rattle.xpath_parser.specs.Building.{search_of};

    /// The paths with the last one.
    fn whole(self) -> Result<Paths, AllocError>
        ensures { IfOk result (λ ps. paths_of ps ≡ whole (search_of self)) }
    {
        let OpenSearch { mut paths, steps } = self;
        paths.push(steps)?;
        Ok(paths)
    }
}

/// The work on a query: the paths of the query or the filter, those around it, and the truths that wait.
#[derive(Drop)]
pub(crate) struct Builder {
    search: OpenSearch,
    outer: Vec<OpenSearch>,
    truths: Vec<Filter>,
}

/// The test, with its name from the bytes.
fn test_named(alloc: Global, bytes: &[u8], asked: Asked) -> Result<Test, AllocError>
    ensures { IfOk result (λ t. test_of t ≡ named bytes.now asked) }
{
    match asked {
        Asked::Star => Ok(Test::Star),
        Asked::Name(span) => Ok(Test::Name(Bytes::from_slice(alloc, part(bytes, span))?)),
        Asked::AnyNode => Ok(Test::AnyNode),
        Asked::TextNode => Ok(Test::TextNode),
        Asked::CommentNode => Ok(Test::CommentNode),
        Asked::InstructionNode => Ok(Test::InstructionNode),
    }
}

/// The comparison of nodes with a value, with their name and the value from the bytes.
fn compared(
    alloc: Global,
    bytes: &[u8],
    operand: Operand,
    value: Span,
) -> Result<Filter, AllocError>
    ensures { IfOk result (λ f. filter_of f ≡ compared bytes.now operand value) }
{
    let text = Bytes::from_slice(alloc, part(bytes, value))?;
    match operand {
        Operand::Texts => Ok(Filter::TextIs(text)),
        Operand::Attributes(name) => {
            let name = Bytes::from_slice(alloc, part(bytes, name))?;
            Ok(Filter::AttributeIs(name, text))
        }
    }
}

fn empty_search(alloc: Global) -> OpenSearch
    ensures { search_of result ≡ no_search }
{
    OpenSearch {
        paths: Paths::new(alloc),
        steps: QuerySteps::new(alloc),
    }
}

fn pop_truth(truths: &mut Vec<Filter>) -> Filter
    ensures top { filter_of result ≡ top (truths_of truths.old.items) }
    ensures rest { truths_of truths.new.items ≡ drop 1 (truths_of truths.old.items) }
{
    match truths.pop() {
        Some(truth) => truth,
        None => Filter::False,
    }
}

fn push_truth(truths: &mut Vec<Filter>, truth: Filter) -> Result<(), AllocError>
    ensures { OnOk result (truths_of truths.new.items ≡ filter_of truth ∷ truths_of truths.old.items) }
{
    truths.push(truth)?;
    Ok(())
}

fn pop_search(alloc: Global, outer: &mut Vec<OpenSearch>) -> OpenSearch
    ensures top { search_of result ≡ get_or (searches_of outer.old.items) 0 no_search }
    ensures rest { searches_of outer.new.items ≡ drop 1 (searches_of outer.old.items) }
{
    match outer.pop() {
        Some(search) => search,
        None => empty_search(alloc),
    }
}

fn push_search(outer: &mut Vec<OpenSearch>, search: OpenSearch) -> Result<(), AllocError>
    ensures { OnOk result (searches_of outer.new.items ≡ search_of search ∷ searches_of outer.old.items) }
{
    outer.push(search)?;
    Ok(())
}

fn told(truth: bool) -> Filter
    ensures { filter_of result ≡ told truth }
{
    if truth { Filter::True } else { Filter::False }
}

impl Builder {
    fn new(alloc: Global) -> Builder
        ensures { building_of result ≡ built [] [] }
    {
        Builder {
            search: empty_search(alloc),
            outer: Vec::new(alloc),
            truths: Vec::new(alloc),
        }
    }

    fn step(
        &mut self,
        alloc: Global,
        bytes: &[u8],
        side: Side,
        axis: Axis,
        asked: Asked,
    ) -> Result<(), AllocError>
        ensures { OnOk result (building_of self.new ≡ applied bytes.now (Op.Step side axis asked) (building_of self.old)) }
    {
        let test = test_named(alloc, bytes, asked)?;
        self.search.steps.push(alloc, axis, test)?;
        Ok(())
    }

    fn filter(&mut self) -> Result<(), AllocError>
        ensures { OnOk result (building_of self.new ≡ applied [] Op.Filter (building_of self.old)) }
    {
        let truth = pop_truth(&mut self.truths);
        self.search.steps.filter(truth)?;
        Ok(())
    }

    fn begin(&mut self, alloc: Global) -> Result<(), AllocError>
        ensures { OnOk result (building_of self.new ≡ applied [] Op.Begin (building_of self.old)) }
    {
        let search = mem::replace(&mut self.search, empty_search(alloc));
        push_search(&mut self.outer, search)?;
        Ok(())
    }

    fn bar(&mut self, alloc: Global, side: Side) -> Result<(), AllocError>
        ensures { OnOk result (building_of self.new ≡ applied [] (Op.Bar side) (building_of self.old)) }
    {
        let steps = mem::replace(&mut self.search.steps, QuerySteps::new(alloc));
        self.search.paths.push(steps)?;
        Ok(())
    }

    fn exists(&mut self, alloc: Global) -> Result<(), AllocError>
        ensures { OnOk result (building_of self.new ≡ applied [] Op.Exists (building_of self.old)) }
    {
        let outer = pop_search(alloc, &mut self.outer);
        let search = mem::replace(&mut self.search, outer);
        push_truth(&mut self.truths, Filter::Exists(search.whole()?))?;
        Ok(())
    }

    fn compare(
        &mut self,
        alloc: Global,
        bytes: &[u8],
        operand: Operand,
        value: Span,
    ) -> Result<(), AllocError>
        ensures { OnOk result (building_of self.new ≡ applied bytes.now (Op.Compare operand value) (building_of self.old)) }
    {
        let truth = compared(alloc, bytes, operand, value)?;
        push_truth(&mut self.truths, truth)?;
        Ok(())
    }

    fn not(&mut self, alloc: Global) -> Result<(), AllocError>
        ensures { OnOk result (building_of self.new ≡ applied [] Op.Not (building_of self.old)) }
    {
        let truth = pop_truth(&mut self.truths);
        push_truth(&mut self.truths, Filter::Not(Box::new(alloc, truth)?))?;
        Ok(())
    }

    fn and(&mut self, alloc: Global) -> Result<(), AllocError>
        ensures { OnOk result (building_of self.new ≡ applied [] Op.And (building_of self.old)) }
    {
        let last = pop_truth(&mut self.truths);
        let first = pop_truth(&mut self.truths);
        push_truth(
            &mut self.truths,
            Filter::And(Box::new(alloc, first)?, Box::new(alloc, last)?),
        )?;
        Ok(())
    }

    fn or(&mut self, alloc: Global) -> Result<(), AllocError>
        ensures { OnOk result (building_of self.new ≡ applied [] Op.Or (building_of self.old)) }
    {
        let last = pop_truth(&mut self.truths);
        let first = pop_truth(&mut self.truths);
        push_truth(
            &mut self.truths,
            Filter::Or(Box::new(alloc, first)?, Box::new(alloc, last)?),
        )?;
        Ok(())
    }

    fn apply(&mut self, alloc: Global, bytes: &[u8], op: Op) -> Result<(), AllocError>
        ensures { OnOk result (building_of self.new ≡ applied bytes.now op (building_of self.old)) }
    {
        match op {
            Op::Step(side, axis, asked) => self.step(alloc, bytes, side, axis, asked),
            Op::Filter => self.filter(),
            Op::Begin => self.begin(alloc),
            Op::Bar(side) => self.bar(alloc, side),
            Op::Exists => self.exists(alloc),
            Op::Truth(truth) => push_truth(&mut self.truths, told(truth)),
            Op::Compare(operand, value) => self.compare(alloc, bytes, operand, value),
            Op::Not => self.not(alloc),
            Op::And => self.and(alloc),
            Op::Or => self.or(alloc),
        }
    }
}

/// The paths of a query, of which the postfix code names places in the bytes.
pub(crate) fn build(alloc: Global, bytes: &[u8], ops: &[Op]) -> Result<Paths, AllocError>
    ensures { IfOk result (λ ps. paths_of ps ≡ whole (built bytes.now (reverse ops.now)).search) }
{
    let mut builder = Builder::new(alloc);
    for op in ops {
        builder.apply(alloc, bytes, *op)?;
    }
    builder.search.whole()
}
