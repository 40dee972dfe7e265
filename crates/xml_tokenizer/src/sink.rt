// What takes tokens.
ghost use Rattle.std.specs.Prelude.{◌≡◌, ◌<◌, ℕ, List, length, Option, Some, None, OnOk, Err};
ghost use Rattle.std.specs.Str.{chars};
ghost use Rattle.xml_tokens.specs.Tokens.{Token};
ghost use Rattle.xml_tokens.specs.SeenTokens.{token_of};
ghost use Rattle.xml_tokenizer.specs.Runs.{IsRun, characters};
ghost use Rattle.xml_tokenizer.specs.Taking.{taken, RefusesRun};

use xml_tokens::Found;

/// Why a sink did not take a token.
#[derive(Clone, Copy, Debug, PartialEq, Eq, Drop)]
pub enum Refused {
    /// It may not stand here.
    Here,
    /// There was no memory.
    Memory,
}

/// Why a sink did not take a run of characters.
#[derive(Clone, Copy, Debug, PartialEq, Eq, Drop)]
pub enum RunRefused {
    /// The characters of the first `at` bytes may stand here, and the one behind them may not.
    Here { at: usize },
    /// There was no memory.
    Memory,
}

/// What takes the tokens of a document, one after another. Its state goes from token to token; what it is after a refusal
/// isn't said, and it need not take a token any more.
pub trait TokenSink {
    /// What it may know of the tokens that it took.
    ghost State: { Type 0 };

    /// Its state.
    ghost state: { Self → State };

    /// The state behind one token more; None where it may not stand there.
    ghost step: { State → Token → Option State };

    /// The states in which it takes tokens.
    ghost IsReady: { State → Type 0 };

    /// Which references it holds, by their names; they stay.
    ghost lenders: { Self → List ℕ };

    /// Takes a token.
    fn token(&mut self, found: Found<'_>) -> Result<(), Refused>
        requires { IsReady (state self.old) }
        ensures ready { OnOk result (IsReady (state self.new)) }
        ensures took { OnOk result (step (state self.old) (token_of found.entry) ≡ Some (state self.new)) }
        ensures lenders { lenders self.new ≡ lenders self.old }
        ensures refused { result ≡ Err Refused.Here → step (state self.old) (token_of found.entry) ≡ None };

    /// Takes a run of characters without `<`, `&` and `]`, each of which is a token.
    fn run(&mut self, bytes: &[u8]) -> Result<(), RunRefused>
        requires some { 0 < length bytes.now }
        requires run { IsRun bytes.now }
        requires ready { IsReady (state self.old) }
        ensures ready { OnOk result (IsReady (state self.new)) }
        ensures took { OnOk result (taken step (state self.old) (characters (chars bytes.now)) ≡ Some (state self.new)) }
        ensures lenders { lenders self.new ≡ lenders self.old }
        ensures refused { (at : ℕ) → result ≡ Err (RunRefused.Here at) → RefusesRun step (state self.old) bytes.now at };
}
