// The spots of rules: a rule whose texts have no marks, or one at a place of the list of texts.
ghost use Rattle.std.specs.Prelude.{◌≡◌, ◌<◌, ◌++◌, [], ◌∷◌, true, length, IfOk, OnOk, slice_get};
ghost use Rattle.value_tests.specs.Steps.{IsPlainSpot, Extends};
ghost use Rattle.value_tests.specs.Spots.{spot_of, SeesSpot};

use slt_grammar::Grammar;
use std::alloc::{AllocError, Global};
use std::marker::Model;

// A rule over arguments that have so many texts, from a place in the list of texts on. Without a place no text of its own is marked.
#[derive(Drop)]
pub(crate) struct Instance {
    pub(crate) rule: usize,
    pub(crate) sizes: Vec<u64>,
    pub(crate) place: Option<u64>,
}

// The spots that were met, each of which becomes a rule.
#[derive(Drop)]
pub(crate) struct Spots {
    spots: Vec<Instance>,
    // The spots of each rule that wait to become rules, and each rule's spot without marks.
    waiting: Vec<Vec<usize>>,
    plain: Vec<Option<usize>>,
}

impl Model for Spots {
    ghost use Rattle.std.specs.Prelude.{List, ℕ, Option, map};
    ghost use Rattle.value_tests.specs.Relabelled.{Spot};
    ghost use Rattle.value_tests.specs.Spots.{spot_of};

    ghost Value = { List (Spot ℕ (Option ℕ)) };

    ghost view = { λ s. map spot_of s.spots.items };
}

impl Spots {
    // No spots of so many rules.
    pub(crate) fn new(alloc: Global, rules: usize) -> Result<Spots, AllocError>
        ensures { IfOk result (λ spots. spots ≡ []) }
    {
        let mut waiting = Vec::with_capacity(alloc, rules)?;
        let mut plain = Vec::with_capacity(alloc, rules)?;
        for _rule in 0..rules {
            waiting.push(Vec::new(alloc))?;
            plain.push(None)?;
        }
        Ok(Spots {
            spots: Vec::new(alloc),
            waiting,
            plain,
        })
    }

    // How many spots there are.
    pub(crate) fn len(&self) -> usize {
        self.spots.len()
    }

    // The spot of a number.
    pub(crate) fn get(&self, id: usize) -> Option<&Instance>
        ensures { SeesSpot result (slice_get self.now id) }
    {
        self.spots.get(id)
    }

    // Takes in a spot, and answers its number.
    pub(crate) fn add(&mut self, spot: Instance) -> Result<usize, AllocError>
        ensures spots { OnOk result (self.new ≡ self.old ++ spot_of spot ∷ []) }
        ensures number { IfOk result (λ id. id ≡ length self.old) }
    {
        let id = self.spots.len();
        let rule = spot.rule;
        if rule >= self.waiting.len() {
            return Err(AllocError);
        }
        self.waiting[rule].push(id)?;
        self.spots.push(spot)?;
        Ok(id)
    }

    // The number of a rule's spot without marks, which is taken in where it is new.
    pub(crate) fn plain(
        &mut self,
        alloc: Global,
        grammar: &Grammar,
        rule: usize,
    ) -> Result<usize, AllocError>
        requires { rule < length grammar.now.rules }
        ensures spots { OnOk result (Extends self.old self.new) }
        ensures plain { IfOk result (λ id. IsPlainSpot self.new id rule) }
    {
        if let Some(Some(id)) = self.plain.get(rule) {
            if self.is_plain(*id, rule) {
                return Ok(*id);
            }
        }
        let sizes = vec![in alloc; 0; grammar.rank(rule)]?;
        let id = self.add(Instance {
            rule,
            sizes,
            place: None,
        })?;
        if rule < self.plain.len() {
            self.plain[rule] = Some(id);
        }
        Ok(id)
    }

    // Whether the spot of a number is this rule's without marks.
    fn is_plain(&self, id: usize, rule: usize) -> bool
        ensures { result ≡ true → IsPlainSpot self.now id rule }
    {
        match self.get(id) {
            Some(spot) => spot.rule == rule && spot.place.is_none(),
            None => false,
        }
    }

    // The spots of a rule that wait, which are taken out.
    pub(crate) fn take_waiting(&mut self, alloc: Global, rule: usize) -> Vec<usize>
        ensures { self.new ≡ self.old }
    {
        if rule < self.waiting.len() {
            std::mem::replace(&mut self.waiting[rule], Vec::new(alloc))
        } else {
            Vec::new(alloc)
        }
    }
}
