// Random models and lists of names, beside regular expressions.
ghost use Rattle.std.specs.Prelude.{◌<◌};

use crate::chains::{is_wrong, table};
use content_models::read_schema;
use plain_tree::Names;
use rand_core::{Rng, SeedableRng};
use rand_xoshiro::SplitMix64;
use regex::bytes::Regex;
use std::alloc::{AllocError, Global};
use std::test::Fail;

const MODELS: usize = 1000;

// Lists of names for each model.
const LISTS: usize = 20;

const NAMES: [&str; 3] = ["a", "b", "c"];

// A model, and a regular expression over names of one letter that matches the same lists.
#[derive(Drop)]
struct Both {
    model: String,
    expression: String,
}

fn one(alloc: Global, model: &str, expression: &str) -> Result<Both, AllocError> {
    Ok(Both {
        model: String::from_str(alloc, model)?,
        expression: String::from_str(alloc, expression)?,
    })
}

// Two models with a sign between them, and their expressions.
fn two(alloc: Global, sign: &str, first: &Both, second: &Both) -> Result<Both, AllocError> {
    let mut both = one(alloc, "(", "(?:")?;
    both.model.push_str(&first.model)?;
    both.model.push_str(sign)?;
    both.model.push_str(&second.model)?;
    both.model.push_str(")")?;
    both.expression.push_str(&first.expression)?;
    both.expression
        .push_str(if sign == "|" { "|" } else { "" })?;
    both.expression.push_str(&second.expression)?;
    both.expression.push_str(")")?;
    Ok(both)
}

// A model with a sign behind it.
fn signed(alloc: Global, sign: &str, inner: &Both) -> Result<Both, AllocError> {
    let mut both = one(alloc, "(", "(?:")?;
    both.model.push_str(&inner.model)?;
    both.model.push_str(")")?;
    both.model.push_str(sign)?;
    both.expression.push_str(&inner.expression)?;
    both.expression.push_str(")")?;
    both.expression.push_str(sign)?;
    Ok(both)
}

fn below(random: &mut SplitMix64, count: usize) -> usize
    requires { 0 < count }
    ensures { result < count }
{
    (random.next_u64() % count as u64) as usize
}

fn leaf(alloc: Global, random: &mut SplitMix64) -> Result<Both, AllocError> {
    if below(random, 8) == 0 {
        return one(alloc, "()", "(?:)");
    }
    let name = NAMES[below(random, 3)];
    one(alloc, name, name)
}

// A model with a name or a sign more.
fn grown(alloc: Global, random: &mut SplitMix64, model: &Both) -> Result<Both, AllocError> {
    match below(random, 7) {
        0 => signed(alloc, "?", model),
        1 => signed(alloc, "*", model),
        2 => signed(alloc, "+", model),
        3 => two(alloc, "|", model, &leaf(alloc, random)?),
        4 => two(alloc, ",", &leaf(alloc, random)?, model),
        _ => two(alloc, ",", model, &leaf(alloc, random)?),
    }
}

fn random_part(alloc: Global, random: &mut SplitMix64) -> Result<Both, AllocError> {
    let mut part = leaf(alloc, random)?;
    for _ in 0..below(random, 5) {
        part = grown(alloc, random, &part)?;
    }
    Ok(part)
}

fn random_model(alloc: Global, random: &mut SplitMix64) -> Result<Both, AllocError> {
    let first = random_part(alloc, random)?;
    let second = random_part(alloc, random)?;
    let sign = ["|", ","][below(random, 2)];
    let mut model = two(alloc, sign, &first, &second)?;
    for _ in 0..below(random, 3) {
        model = grown(alloc, random, &model)?;
    }
    Ok(model)
}

fn random_list(alloc: Global, random: &mut SplitMix64) -> Result<Vec<u8>, AllocError> {
    let mut list = Vec::new(alloc);
    for _ in 0..below(random, 7) {
        list.extend_from_slice(NAMES[below(random, 3)].as_bytes())?;
    }
    Ok(list)
}

// Of a random model and some lists, how many both match, if they match the same.
fn matched(alloc: Global, names: &Names, random: &mut SplitMix64) -> Result<Option<usize>, Fail> {
    let both = random_model(alloc, random)?;
    let mut line = String::from_str(alloc, "x = ")?;
    line.push_str(&both.model)?;
    let checker = read_schema(alloc, line.as_bytes())?.compile(alloc, names)?;
    let mut whole = String::from_str(alloc, "^")?;
    whole.push_str(&both.expression)?;
    whole.push_str("$")?;
    let regex = Regex::new(alloc, &whole)?;
    let mut matcher = regex.matcher(alloc)?;
    let mut count: usize = 0;
    for _ in 0..LISTS {
        let list = random_list(alloc, random)?;
        let matches = matcher.is_match(&list);
        if matches == is_wrong(names, &checker, &list)? {
            return Ok(None);
        }
        count = count.saturating_add(usize::from(matches));
    }
    Ok(Some(count))
}

#[test]
fn models_match_what_expressions_match(rt: HostRuntime) -> Result<(), Fail> {
    let names = table(rt.alloc())?;
    let mut random = SplitMix64::seed_from_u64(1);
    let mut count: usize = 0;
    for round in 0..MODELS {
        let matched = matched(rt.alloc(), &names, &mut random)?;
        assert!(rt; matched.is_some(), "round {round}");
        count = count.saturating_add(matched.unwrap_or(0));
    }
    assert!(rt;
        count > MODELS * LISTS / 10 && count < MODELS * LISTS / 2,
        "{count} lists are matched"
    );
    Ok(())
}
