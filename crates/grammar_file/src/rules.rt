// The rules of a file.
ghost use Rattle.std.specs.Prelude.{◌≡◌, ◌≢◌, ◌≤◌, ℕ, [], get_or, length};
ghost use Rattle.std.specs.List.{flat_map};
ghost use Rattle.slt_grammar.specs.Algebras.{ranks_of};
ghost use Rattle.slt_grammar.specs.Bodies.{arity};
ghost use Rattle.slt_grammar.specs.Keyed.{rules_of};
ghost use Rattle.grammar_file.specs.FileBytes.{label_bytes, list_bytes, rule_bytes};
ghost use Rattle.grammar_file.specs.Files.{AreNamed, AreRules, SymbolsBelow};
ghost use Rattle.grammar_file.specs.Forming.{AreFormed, IsBody, IsPlaced, IsRule};
ghost use Rattle.grammar_file.specs.Reading.{Fails, Reads, ReadsAs};

use crate::error::FileError;
use crate::scan::Scan;
use slt_grammar::{Body, Grammar, GrammarError, Label, Rule, RuleList, check};
use std::alloc::Global;

/// The grammar over so many names.
pub(crate) fn read_grammar(
    alloc: Global,
    names: usize,
    scan: &mut Scan<'_>,
) -> Result<Grammar, FileError>
    ensures { ReadsAs (λ g. rules_of g.rules) (AreRules names) (list_bytes rule_bytes) scan.old result scan.new }
{
    let rules = read_rules(alloc, names, scan)?;
    match check(alloc, rules) {
        Ok(grammar) => Ok(grammar),
        Err(fault) => Err(refused_by(fault)),
    }
}

// What a fault of the rules, or the want of memory for them, is to the reader of a file.
fn refused_by(fault: GrammarError) -> FileError
    ensures bad { Fails result (fault ≢ GrammarError.Memory) }
    ensures memory { result ≡ FileError.Memory → fault ≡ GrammarError.Memory }
{
    match fault {
        GrammarError::Memory => FileError::Memory,
        _ => FileError::Bad,
    }
}

// The rules, in order, each over those before it.
fn read_rules(alloc: Global, names: usize, scan: &mut Scan<'_>) -> Result<RuleList, FileError>
    ensures { Reads (λ G. AreFormed [] G × AreNamed names G) (list_bytes rule_bytes) scan.old result scan.new }
{
    let count = scan.count()?;
    let mut rules = RuleList::new(alloc);
    for _ in 0..count {
        let rule = read_rule(alloc, names, rules.as_slice(), scan)?;
        rules.push(rule.rank, rule.body)?;
    }
    Ok(rules)
}

fn read_rule(
    alloc: Global,
    names: usize,
    before: &[Rule],
    scan: &mut Scan<'_>,
) -> Result<Rule, FileError>
    requires { (q : ℕ) → get_or (ranks_of before.now) q 0 ≤ 8 }
    ensures { Reads (λ R. IsRule before.now R × SymbolsBelow names R.body) rule_bytes scan.old result scan.new }
{
    let rank = scan.byte()? as usize;
    if rank > 8 {
        return Err(FileError::Bad);
    }
    let body = read_body(alloc, names, before, scan)?;
    Ok(Rule { rank, body })
}

// The labels of one term.
fn read_body(
    alloc: Global,
    names: usize,
    before: &[Rule],
    scan: &mut Scan<'_>,
) -> Result<Body, FileError>
    requires { (q : ℕ) → get_or (ranks_of before.now) q 0 ≤ 8 }
    ensures { Reads (λ body. IsBody before.now body × SymbolsBelow names body) (flat_map label_bytes) scan.old result scan.new }
{
    let mut body = Body::new(alloc);
    // How many terms are still to come.
    let mut missing: usize = 1;
    while missing > 0 {
        // Each of them has a byte at least, so their number stays small.
        if missing > scan.len() {
            return Err(FileError::Bad);
        }
        let label = read_label(names, before.len(), scan)?;
        missing = missing - 1 + kids_of(before, label);
        body.push(label)?;
    }
    Ok(body)
}

fn read_label(names: usize, rules: usize, scan: &mut Scan<'_>) -> Result<Label, FileError>
    ensures { Reads (IsPlaced names rules) label_bytes scan.old result scan.new }
{
    match scan.byte()? {
        0 => Ok(Label::Bottom),
        1 => Ok(Label::Param),
        2 => Ok(Label::Symbol(scan.place(names)?)),
        3 => Ok(Label::Call(scan.place(rules)?)),
        _ => Err(FileError::Bad),
    }
}

// How many terms stand under a label.
fn kids_of(rules: &[Rule], label: Label) -> usize
    ensures { result ≡ arity (ranks_of rules.now) label }
{
    match label {
        Label::Bottom | Label::Param => 0,
        Label::Symbol(_) => 2,
        Label::Call(rule) => rules.get(rule).map_or(0, |called| called.rank),
    }
}
