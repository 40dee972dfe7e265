// A query, written out in full. Each `and` and `or` stands in parentheses, and each path of the query begins with `/`.
use crate::parsed::Query;
use crate::query::{Axis, Filter, Filters, Paths, QueryStep, QuerySteps, Test};
use plain_tree::Bytes;
use std::fmt::{self, Display, Formatter};
use std::str;

impl Axis {
    /// The axis by its name (XPath 1.0, 2.2).
    fn name(self) -> &'static str {
        match self {
            Axis::Child => "child",
            Axis::Descendant => "descendant",
            Axis::DescendantOrSelf => "descendant-or-self",
            Axis::SelfNode => "self",
            Axis::FollowingSibling => "following-sibling",
            Axis::Attribute => "attribute",
        }
    }
}

impl Display for Test {
    fn fmt<W: fmt::Write>(&self, f: &mut Formatter<W>) -> fmt::Result {
        match self {
            Test::Star => f.write_str("*"),
            Test::Name(name) => write_bytes(f, name),
            Test::AnyNode => f.write_str("node()"),
            Test::TextNode => f.write_str("text()"),
            Test::CommentNode => f.write_str("comment()"),
            Test::InstructionNode => f.write_str("processing-instruction()"),
        }
    }
}

fn write_bytes<W: fmt::Write>(f: &mut Formatter<W>, bytes: &Bytes) -> fmt::Result {
    match str::from_utf8(bytes.as_slice()) {
        Ok(text) => f.write_str(text),
        Err(_) => Err(fmt::Error),
    }
}

// A value between quotes that it lacks.
fn write_literal<W: fmt::Write>(f: &mut Formatter<W>, value: &Bytes) -> fmt::Result {
    let quote = if value.as_slice().contains(&b'"') {
        "'"
    } else {
        "\""
    };
    f.write_str(quote)?;
    write_bytes(f, value)?;
    f.write_str(quote)
}

#[cycle(display)]
fn write_filter<W: fmt::Write>(f: &mut Formatter<W>, filter: &Filter) -> fmt::Result {
    match filter {
        Filter::Or(first, second) => {
            f.write_str("(")?;
            write_filter(f, first)?;
            f.write_str(" or ")?;
            write_filter(f, second)?;
            f.write_str(")")
        }
        Filter::And(first, second) => {
            f.write_str("(")?;
            write_filter(f, first)?;
            f.write_str(" and ")?;
            write_filter(f, second)?;
            f.write_str(")")
        }
        Filter::Not(inner) => {
            f.write_str("not(")?;
            write_filter(f, inner)?;
            f.write_str(")")
        }
        Filter::True => f.write_str("true()"),
        Filter::False => f.write_str("false()"),
        Filter::Exists(paths) => write_paths(f, paths),
        Filter::TextIs(value) => {
            f.write_str("child::text()=")?;
            write_literal(f, value)
        }
        Filter::AttributeIs(name, value) => {
            f.write_str("attribute::")?;
            write_bytes(f, name)?;
            f.write_str("=")?;
            write_literal(f, value)
        }
    }
}

#[cycle(display)]
fn write_filters<W: fmt::Write>(f: &mut Formatter<W>, filters: &Filters) -> fmt::Result {
    'filters: for filter in filters.filters.iter() {
        f.write_str("[")?;
        write_filter(f, filter)?;
        f.write_str("]")?;
    }
    Ok(())
}

#[cycle(display)]
fn write_step<W: fmt::Write>(f: &mut Formatter<W>, step: &QueryStep) -> fmt::Result {
    f.write_str(step.axis.name())?;
    f.write_str("::")?;
    step.test.fmt(f)?;
    write_filters(f, &step.filters)
}

#[cycle(display)]
fn write_steps<W: fmt::Write>(f: &mut Formatter<W>, steps: &QuerySteps) -> fmt::Result {
    let mut follows = false;
    'steps: for step in steps.steps.iter() {
        if follows {
            f.write_str("/")?;
        }
        write_step(f, step)?;
        follows = true;
    }
    Ok(())
}

#[cycle(display)]
fn write_paths<W: fmt::Write>(f: &mut Formatter<W>, paths: &Paths) -> fmt::Result {
    let mut follows = false;
    'paths: for path in paths.paths.iter() {
        if follows {
            f.write_str(" | ")?;
        }
        write_steps(f, &path.steps)?;
        follows = true;
    }
    Ok(())
}

impl Display for Query {
    fn fmt<W: fmt::Write>(&self, f: &mut Formatter<W>) -> fmt::Result {
        let mut follows = false;
        for path in self.paths.paths.iter() {
            if follows {
                f.write_str(" | ")?;
            }
            f.write_str("/")?;
            write_steps(f, &path.steps)?;
            follows = true;
        }
        Ok(())
    }
}
