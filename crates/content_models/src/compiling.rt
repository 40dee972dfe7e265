// A model is compiled for a table of names. Its code is read forward for the fronts, and backward for the places.
ghost use Rattle.std.specs.Prelude.{◌≡◌, ◌<◌, ◌≤◌, ◌+◌, ◌^◌, ◌++◌, ◌∷◌, [], drop, get_or, length, set, reverse, IfOk, OnOk};
ghost use Rattle.content_models.specs.Compiling.{Adds, AddsOne, all_places, forward, fronts_after, fronts_left, operand, place_on, places_after, steps_of, top_of, ways_before};
ghost use Rattle.content_models.specs.Postfix.{names_in_code};
ghost use Rattle.content_models.specs.Rules.{rule_of};
ghost use Rattle.content_models.specs.Ways.{places_of, to_end, way_of};

use crate::checker::Row;
use crate::postfix::{Op, names_in_code};
use crate::schema::Declaration;
use crate::ways::{Front, Spot, Way};
use plain_tree::{Kind, Names};
use std::alloc::{AllocError, Global};

const NO_FRONT: Front = Front {
    set: 0,
    nullable: false,
};

const TO_END: Way = Way { set: 0, end: true };

fn bit(at: usize) -> u64
    requires { at < 64 }
    ensures { result ≡ 2 ^ at }
{
    1 << at
}

/// The fronts of the operands that wait, and the number of the next place.
#[derive(Drop)]
struct Fronts {
    at: usize,
    waiting: Vec<Front>,
}

impl Fronts {
    ghost use Rattle.content_models.specs.Passing.{fronts_in};

    fn new(alloc: Global) -> Fronts
        ensures at { result.at ≡ 0 }
        ensures fronts { fronts_in result ≡ [] }
    {
        Fronts {
            at: 0,
            waiting: Vec::new(alloc),
        }
    }

    fn push(&mut self, front: Front) -> Result<(), AllocError>
        ensures fronts { OnOk result (fronts_in self.new ≡ front ∷ fronts_in self.old) }
        ensures at { self.new.at ≡ self.old.at }
    {
        self.waiting.push(front)?;
        Ok(())
    }

    fn pop(&mut self) -> Front
        ensures top { result ≡ top_of (fronts_in self.old) }
        ensures rest { fronts_in self.new ≡ drop 1 (fronts_in self.old) }
        ensures at { self.new.at ≡ self.old.at }
    {
        match self.waiting.pop() {
            Some(front) => front,
            None => NO_FRONT,
        }
    }

    /// Applies an operation, and answers the front of its last operand.
    fn apply(&mut self, op: &Op) -> Result<Front, AllocError>
        requires { self.old.at + names_in_code (op.now ∷ []) ≤ 64 }
        ensures front { IfOk result (λ front. front ≡ operand op.now (fronts_in self.old)) }
        ensures fronts { OnOk result (fronts_in self.new ≡ fronts_after self.old.at op.now (fronts_in self.old)) }
        ensures at { OnOk result (self.new.at ≡ places_after self.old.at op.now) }
    {
        match op {
            Op::Push(_) => {
                self.push(Front {
                    set: bit(self.at),
                    nullable: false,
                })?;
                self.at += 1;
                Ok(NO_FRONT)
            }
            Op::PushNothing => {
                self.push(Front {
                    set: 0,
                    nullable: true,
                })?;
                Ok(NO_FRONT)
            }
            Op::Join => {
                let second = self.pop();
                let first = self.pop();
                self.push(first.then(second))?;
                Ok(second)
            }
            Op::Choose => {
                let second = self.pop();
                let first = self.pop();
                self.push(first.either(second))?;
                Ok(second)
            }
            Op::MakeOptional | Op::MakeAny => {
                let front = self.pop();
                self.push(front.optional())?;
                Ok(front)
            }
            Op::MakeSome => {
                let front = self.pop();
                self.push(front)?;
                Ok(front)
            }
        }
    }
}

/// Reads the code forward: for each operation the front of its last operand. Answers where the model begins.
fn read_fronts(alloc: Global, code: &[Op], fronts: &mut Vec<Front>) -> Result<Front, AllocError>
    requires few { names_in_code code.now ≤ 64 }
    requires empty { fronts.old.items ≡ [] }
    ensures front { IfOk result (λ front. front ≡ top_of (fronts_left 0 [] code.now)) }
    ensures steps { OnOk result (steps_of code.now fronts.new.items (length code.now) ≡ forward 0 [] code.now []) }
    ensures all { OnOk result (length fronts.new.items ≡ length code.now) }
{
    let mut pass = Fronts::new(alloc);
    'ops: for op in code {
        let front = pass.apply(op)?;
        fronts.push(front)?;
    }
    Ok(pass.pop())
}

/// Puts the ways behind the operands of an operation on those that wait.
fn push_ways(ways: &mut Vec<Way>, op: &Op, front: Front, way: Way) -> Result<(), AllocError>
    ensures { OnOk result (reverse ways.new.items ≡ ways_before op.now front way (reverse ways.old.items)) }
{
    match op {
        Op::Push(_) | Op::PushNothing => Ok(()),
        Op::Join => push_two(ways, front.ahead(way), way),
        Op::Choose => push_two(ways, way, way),
        Op::MakeOptional => push_one(ways, way),
        Op::MakeAny | Op::MakeSome => push_one(ways, front.optional().ahead(way)),
    }
}

fn push_one(ways: &mut Vec<Way>, way: Way) -> Result<(), AllocError>
    ensures { OnOk result (reverse ways.new.items ≡ way ∷ reverse ways.old.items) }
{
    ways.push(way)?;
    Ok(())
}

fn push_two(ways: &mut Vec<Way>, lower: Way, upper: Way) -> Result<(), AllocError>
    ensures { OnOk result (reverse ways.new.items ≡ upper ∷ lower ∷ reverse ways.old.items) }
{
    push_one(ways, lower)?;
    push_one(ways, upper)
}

/// Adds a place of the name to its row, if the table has the name.
fn add_named(names: &Names, name: &[u8], spot: Spot, rows: &mut Vec<Row>) -> Result<(), AllocError>
    requires { length rows.old.items ≡ length names.now }
    ensures added { OnOk result (AddsOne names.now name.now spot rows.old.items rows.new.items) }
    ensures rows { OnOk result (length rows.new.items ≡ length rows.old.items) }
{
    match names.find(Kind::Element, name) {
        Some(symbol) => Ok(add_spot(rows, symbol, spot)?),
        None => Ok(()),
    }
}

fn add_spot(rows: &mut Vec<Row>, symbol: usize, spot: Spot) -> Result<(), AllocError>
    requires { symbol < length rows.old.items }
    ensures { OnOk result (rows.new.items ≡ set rows.old.items symbol (get_or rows.old.items symbol [] ++ spot ∷ [])) }
{
    rows[symbol].push(spot)
}

/// Adds the place of an operation, if it is one. Answers the number of the first place that was added.
fn add_place(
    names: &Names,
    model: usize,
    at: usize,
    op: &Op,
    next: Way,
    rows: &mut Vec<Row>,
) -> Result<usize, AllocError>
    requires room { names_in_code (op.now ∷ []) ≤ at }
    requires small { at ≤ 64 }
    requires rows { length rows.old.items ≡ length names.now }
    ensures at { IfOk result (λ first. first + names_in_code (op.now ∷ []) ≡ at) }
    ensures added { IfOk result (λ first. Adds names.now model first (place_on op.now next []) rows.old.items rows.new.items) }
    ensures rows { OnOk result (length rows.new.items ≡ length rows.old.items) }
{
    match op {
        Op::Push(name) => {
            let first = at - 1;
            let spot = Spot {
                model,
                bit: bit(first),
                next,
            };
            add_named(names, name.as_slice(), spot, rows)?;
            Ok(first)
        }
        _ => Ok(at),
    }
}

/// Reads the code backward, and adds the places of the model with this number to the rows.
fn read_places(
    alloc: Global,
    names: &Names,
    model: usize,
    code: &[Op],
    fronts: &[Front],
    rows: &mut Vec<Row>,
) -> Result<(), AllocError>
    requires few { names_in_code code.now ≤ 64 }
    requires all { length fronts.now ≡ length code.now }
    requires places { length (all_places code.now fronts.now) ≡ names_in_code code.now }
    requires rows { length rows.old.items ≡ length names.now }
    ensures added { OnOk result (Adds names.now model 0 (all_places code.now fronts.now) rows.old.items rows.new.items) }
    ensures rows { OnOk result (length rows.new.items ≡ length rows.old.items) }
{
    let mut ways = Vec::new(alloc);
    push_one(&mut ways, TO_END)?;
    let mut at = names_in_code(code);
    let mut left = code.len();
    while left > 0 {
        left -= 1;
        let Some(way) = ways.pop() else {
            return Ok(());
        };
        let op = &code[left];
        at = add_place(names, model, at, op, way, rows)?;
        push_ways(&mut ways, op, fronts[left], way)?;
    }
    Ok(())
}

/// Adds the places of a model to the rows, and answers where it begins.
pub(crate) fn add_model(
    alloc: Global,
    names: &Names,
    model: usize,
    declaration: &Declaration,
    rows: &mut Vec<Row>,
) -> Result<Way, AllocError>
    requires { length rows.old.items ≡ length names.now }
    ensures front { IfOk result (λ way. way ≡ way_of 0 (rule_of declaration.now).1 to_end) }
    ensures added { OnOk result (Adds names.now model 0 (places_of 0 (rule_of declaration.now).1 to_end) rows.old.items rows.new.items) }
    ensures rows { OnOk result (length rows.new.items ≡ length rows.old.items) }
{
    let mut fronts = Vec::new(alloc);
    let front = read_fronts(alloc, &declaration.code, &mut fronts)?;
    read_places(alloc, names, model, &declaration.code, &fronts, rows)?;
    Ok(front.ahead(TO_END))
}
