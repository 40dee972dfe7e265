// A schema is compiled for a table of names.
ghost use Rattle.std.specs.Prelude.{◌≡◌, [], map, replicate, length, IfOk, OnOk};
ghost use Rattle.plain_tree.specs.Numbers.{nodes};
ghost use Rattle.plain_tree.specs.Tree.{Tree, none, more};
ghost use Rattle.slt_grammar.specs.Automata.{hits};
ghost use Rattle.slt_grammar.specs.Coding.{Codes};
ghost use Rattle.slt_grammar.specs.Terms.{Term};
ghost use Rattle.content_models.specs.Checking.{checking_algebra, checking_downward};
ghost use Rattle.content_models.specs.Compiled.{AddsAll, ruled_from, sort_of};
ghost use Rattle.content_models.specs.Rules.{rule_of, rules_of};
ghost use Rattle.content_models.specs.Ways.{to_end, way_of};
ghost use Rattle.content_models.specs.Wrong.{AreWrong};

use crate::checker::{Checker, Row};
use crate::compiling::add_model;
use crate::schema::{Declaration, Schema};
use crate::sorts::Sort;
use crate::ways::Way;
use plain_tree::{Kind, Names};
use std::alloc::{AllocError, Global};

impl Schema {
    /// The checker of this schema for documents with this table of names.
    ///
    /// Over what codes a document it hits the elements whose names have models that do not match the names of their child elements. It
    /// fails for want of memory alone.
    pub fn compile(&self, alloc: Global, names: &Names) -> Result<Checker, AllocError>
        ensures { IfOk result (λ checker. (t : Tree) (term : Term) → Codes names.now (more t none) term → AreWrong (rules_of self.now) 0 (nodes t) (hits (checking_algebra checker) (checking_downward checker) term)) }
    {
        let sorts = sorts_of(alloc, &self.declarations, names)?;
        let mut rows = empty_rows(alloc, names.len())?;
        let fronts = add_models(alloc, names, &self.declarations, &mut rows)?;
        Ok(Checker {
            alloc,
            sorts,
            fronts,
            rows,
        })
    }
}

/// The sort of an element, by the first model of its name.
fn ruled(declarations: &[Declaration], name: &[u8]) -> Sort
    ensures { result ≡ ruled_from 0 (map rule_of declarations.now) name.now }
{
    'models: for model in 0..declarations.len() {
        if declarations[model].name.as_slice() == name {
            return Sort::Ruled(model);
        }
    }
    Sort::Free
}

fn sort_of(declarations: &[Declaration], kind: Kind, name: &[u8]) -> Sort
    ensures { result ≡ sort_of (map rule_of declarations.now) kind name.now }
{
    match kind {
        Kind::Element => ruled(declarations, name),
        _ => Sort::Other,
    }
}

fn sorts_of(
    alloc: Global,
    declarations: &[Declaration],
    names: &Names,
) -> Result<Vec<Sort>, AllocError>
    ensures { IfOk result (λ sorts. sorts.items ≡ map (λ pair. sort_of (map rule_of declarations.now) pair.0 pair.1) names.now) }
{
    let mut sorts = Vec::new(alloc);
    'names: for place in 0..names.len() {
        let Some((kind, name)) = names.at(place) else {
            unreachable!()
        };
        sorts.push(sort_of(declarations, kind, name))?;
    }
    Ok(sorts)
}

fn empty_rows(alloc: Global, count: usize) -> Result<Vec<Row>, AllocError>
    ensures { IfOk result (λ rows. rows.items ≡ replicate count []) }
{
    let mut rows = Vec::new(alloc);
    'rows: for _ in 0..count {
        rows.push(Row {
            spots: Vec::new(alloc),
        })?;
    }
    Ok(rows)
}

/// Adds the places of all models to the rows, and answers where each model begins.
fn add_models(
    alloc: Global,
    names: &Names,
    declarations: &[Declaration],
    rows: &mut Vec<Row>,
) -> Result<Vec<Way>, AllocError>
    requires { length rows.old.items ≡ length names.now }
    ensures fronts { IfOk result (λ fronts. fronts.items ≡ map (λ pair. way_of 0 pair.1 to_end) (map rule_of declarations.now)) }
    ensures added { OnOk result (AddsAll names.now (map rule_of declarations.now) rows.old.items rows.new.items) }
{
    let mut fronts = Vec::new(alloc);
    'models: for model in 0..declarations.len() {
        let front = add_model(alloc, names, model, &declarations[model], rows)?;
        fronts.push(front)?;
    }
    Ok(fronts)
}
