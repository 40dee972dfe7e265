// The subterms of a code, each once.
ghost use Rattle.std.specs.Prelude.{◌≡◌, ◌≤◌, ◌<◌, ◌+◌, ◌^◌, [], ℕ, length, Some, slice_get, IfOk, OnOk};
ghost use Rattle.std.specs.Hash as fed;
ghost use Rattle.std.specs.Cmp.Rules.{hashing};
ghost use Rattle.std.proofs.Common.{rules};
ghost use Rattle.slt_grammar.specs.Terms.{Term, Node};
ghost use Rattle.fcns_encoding.specs.Cells.{cell_code, terms_of, KeepsTerms, AreEarlier, AreDistinctCells, Extends};

use indexmap::IndexSet;
use std::alloc::{AllocError, Global};
use std::hash::{Hash, Hasher};
use std::marker::Model;

// A symbol over two subterms, by their numbers.
#[derive(Clone, Copy, PartialEq, Eq, Drop)]
pub(crate) struct Cell {
    pub(crate) symbol: u32,
    pub(crate) first: u32,
    pub(crate) second: u32,
}

impl Cell {
    // The three numbers in one, so that a hash takes one write.
    fn code(self) -> u128
        ensures { result ≡ cell_code self }
    {
        (self.symbol as u128 * (1 << 32) + self.first as u128) * (1 << 32) + self.second as u128
    }
}

impl Hash for Cell {
    ghost hash_input = { λ c. fed.u128 (cell_code c) };

    ghost respects_eq = { Prim.search (hashing, rules) };

    fn hash<H: Hasher>(&self, state: &mut H) {
        state.write_u128(self.code());
    }
}

// The table of subterms: number 0 is bottom, number k + 1 the cell at k.
#[derive(Drop)]
pub(crate) struct Subterms {
    cells: IndexSet<Cell>,
}

impl Model for Subterms {
    ghost use Rattle.std.specs.Prelude.{List};
    ghost use Rattle.fcns_encoding.specs.declared.subterms.Cell.{Cell};

    ghost Value = { List Cell };

    ghost view = { λ s. s.cells.keys };

    ghost use Rattle.fcns_encoding.specs.Cells.{AreCells};

    ghost invariant = { λ s. AreCells s.cells.keys };
}

impl Subterms {
    pub(crate) fn new(alloc: Global) -> Subterms
        ensures { result ≡ [] }
    {
        Subterms {
            cells: IndexSet::new(alloc),
        }
    }

    pub(crate) fn as_slice(&self) -> &[Cell]
        ensures value { result.now ≡ self.now }
        ensures few { length self.now < 2 ^ 63 }
        ensures earlier { AreEarlier self.now }
        ensures distinct { AreDistinctCells self.now }
    {
        let _few = self.cells.len();
        self.cells.as_slice()
    }

    // The number of a symbol over two numbers, which is new if it was not there. It is refused for want of memory, and where a
    // number would have more than 32 bits.
    pub(crate) fn node(&mut self, symbol: u32, first: u32, second: u32) -> Result<u32, AllocError>
        requires first { first ≤ length self.old }
        requires second { second ≤ length self.old }
        ensures term { (a b : Term) → slice_get (terms_of self.old) first ≡ Some a → slice_get (terms_of self.old) second ≡ Some b
            → IfOk result (λ k. slice_get (terms_of self.new) k ≡ Some (Node symbol a b)) }
        ensures keeps { OnOk result (KeepsTerms self.old self.new) }
        ensures within { IfOk result (λ k. k ≤ length self.new) }
        ensures extends { IfOk result (λ k. Extends self.old (record { symbol = symbol; first = first; second = second }) k self.new) }
    {
        let (index, _) = self.cells.insert_full(Cell {
            symbol,
            first,
            second,
        })?;
        // The call tells that the number fits.
        let _len = self.cells.len();
        let number = short(index + 1)?;
        Ok(number)
    }
}

// A number of 32 bits.
pub(crate) fn short(number: usize) -> Result<u32, AllocError>
    ensures { IfOk result (λ n. n ≡ number) }
{
    match u32::try_from(number) {
        Ok(number) => Ok(number),
        Err(_) => Err(AllocError),
    }
}
