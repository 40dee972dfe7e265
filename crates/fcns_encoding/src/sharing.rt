// Which subterms get a rule of their own.
ghost use Rattle.std.specs.Prelude.{◌≡◌, ℕ, nat_le};
ghost use Rattle.fcns_encoding.specs.Marks.{capped, is_shared};

/// How often others must use a subterm for a rule of its own: `uses` times or more, or `large_uses` times or more where the rule is
/// large.
///
/// A rule is large whose body has `large` labels or more: bottoms, symbols and calls of other rules.
#[derive(Clone, Copy, Drop)]
pub struct Sharing {
    pub uses: u32,
    pub large_uses: u32,
    pub large: u32,
}

impl Sharing {
    /// A rule for each subterm that is used `uses` times or more, however small the rule is.
    pub fn of_uses(uses: u32) -> Sharing
        ensures { (n labels : ℕ) → is_shared result n labels ≡ nat_le uses n }
    {
        Sharing {
            uses,
            large_uses: uses,
            large: 0,
        }
    }

    // Whether so many uses of a body of so many labels make a rule.
    pub(crate) fn shares(self, uses: u32, labels: u32) -> bool
        ensures { (n m : ℕ) → uses ≡ capped n → labels ≡ capped m → result ≡ is_shared self n m }
    {
        uses >= self.uses || uses >= self.large_uses && labels >= self.large
    }
}
