// A reader that is fed the bytes of a document in pieces.
ghost use Rattle.std.specs.Prelude.{◌≡◌, ◌+◌, ◌<◌, ◌^◌, ◌++◌, [], List, ℕ, length, OnOk, IfOk, IsTrue, Err, Some, None, true, false};
ghost use Rattle.plain_tree.specs.Tree.{Tree, Trees};
ghost use Rattle.xml_nodes.specs.Machine.{State, Event, events, fragment_start};
ghost use Rattle.xml_nodes.specs.Place.{IsListPlace};
ghost use Rattle.xml_nodes.specs.Spelling.{Spells, SpellsList};
ghost use Rattle.xml_nodes.specs.StateOf.{state_of};
ghost use Rattle.xml_nodes.specs.Taking.{built, IsReady};
ghost use Rattle.xml_profile.specs.Reading.{StandsFrom, Stands, EndsDocument, EndsContent, IsFed, IsFedOn, IsBad, count_of, depth_of, answer_of};
ghost use Rattle.xml_profile.specs.Breaks.{ReadsOn, BreaksFrom};

use crate::error::XmlError;
use crate::feeding::feed_tokens;
use std::alloc::{AllocError, Global};
use xml_nodes::{Builder, Machine, Refusal};
use xml_tokenizer::{TokenError, Tokenizer};

/// Reads a document whose bytes come in pieces (XML 1.0, fifth edition, without internal subsets), and makes the calls of its tree
/// at a `Builder`. No piece is kept, but for a token that it cuts off.
///
/// After an error each later call answers that error again.
#[derive(Drop)]
pub struct Reader {
    tokenizer: Tokenizer,
    machine: Machine,
    failed: Option<XmlError>,
}

impl Reader {
    /// A reader that was fed nothing.
    pub fn new(alloc: Global) -> Result<Reader, AllocError>
        ensures fed { IfOk result (λ r. IsFed r [] []) }
        ensures unfailed { IfOk result (λ r. r.failed ≡ None) }
        ensures count { IfOk result (λ r. count_of r ≡ 0) }
        ensures depth { IfOk result (λ r. depth_of r ≡ 0) }
    {
        Ok(Reader {
            tokenizer: Tokenizer::new(alloc),
            machine: Machine::new(alloc),
            failed: None,
        })
    }

    // A reader of the content of an element without a name, as which a fragment is read, that was fed nothing.
    pub(crate) fn of_content(alloc: Global) -> Result<Reader, AllocError>
        ensures fed { IfOk result (λ r. StandsFrom fragment_start r [] []) }
        ensures count { IfOk result (λ r. count_of r ≡ 0) }
        ensures depth { IfOk result (λ r. depth_of r ≡ 1) }
    {
        Ok(Reader {
            tokenizer: Tokenizer::new(alloc),
            machine: Machine::of_content(alloc)?,
            failed: None,
        })
    }

    // How many bytes stand in front of the token that is not whole.
    pub(crate) fn start(&self) -> u64
        ensures { (calls : List Event) (fed : List ℕ) → StandsFrom fragment_start self.now calls fed → IsListPlace fed result }
    {
        self.tokenizer.start()
    }

    // Ends the content: the builder gets its last text. False where it may not end here.
    pub(crate) fn end_content<B: Builder>(&mut self, builder: &mut B) -> Result<bool, AllocError>
        requires { IsReady (state_of self.old.machine) (built B.Builder builder.old) }
        ensures ended { IfOk result (λ done. done ≡ true → (calls : List Event) (fed : List ℕ) → StandsFrom fragment_start self.old calls fed →
            EndsContent (B.log builder.old) (B.log builder.new) calls fed) }
        ensures bad { IfOk result (λ done. done ≡ false → (calls : List Event) (fed : List ℕ) → StandsFrom fragment_start self.old calls fed →
            (nodes : Trees) → SpellsList fed nodes → ⊥) }
    {
        if !self.tokenizer.is_whole() {
            return Ok(false);
        }
        match self.machine.end_content(builder) {
            Ok(()) => Ok(true),
            Err(Refusal::Misplaced) => Ok(false),
            Err(Refusal::Memory) => Err(AllocError),
        }
    }

    /// Reads the next piece, which may end anywhere, also inside a character. The builder gets the calls of the bytes fed so far,
    /// whatever the pieces in which they came; it met no refusal, and has as many elements open as the reader. All bytes
    /// together are fewer than 2^64.
    ///
    /// `Bad` comes only where no document begins with the bytes fed, and tells the place.
    pub fn feed<B: Builder>(
        &mut self,
        alloc: Global,
        piece: &[u8],
        builder: &mut B,
    ) -> Result<(), XmlError>
        requires ready { self.old.failed ≡ None → IsReady (state_of self.old.machine) (built B.Builder builder.old) }
        requires count { self.old.failed ≡ None → count_of self.old + length piece.now < 2 ^ 64 }
        ensures fed { (calls : List Event) (fed : List ℕ) → IsFed self.old calls fed →
            IsFedOn self.new (B.log builder.old) (B.log builder.new) calls (fed ++ piece.now) }
        ensures ready { OnOk result (IsReady (state_of self.new.machine) (built B.Builder builder.new)) }
        ensures count { OnOk result (count_of self.new ≡ count_of self.old + length piece.now) }
        ensures answer { result ≡ answer_of self.new.failed }
        ensures again { (e : XmlError) → self.old.failed ≡ Some e → self.new.failed ≡ Some e }
    {
        if let Some(e) = self.failed {
            return Err(e);
        }
        match self.read_on(alloc, piece, builder) {
            Ok(()) => Ok(()),
            Err(e) => Err(self.fail(e)),
        }
    }

    // Reads the next piece of bytes in which no fault was found so far.
    pub(crate) fn read_on<B: Builder>(
        &mut self,
        alloc: Global,
        piece: &[u8],
        builder: &mut B,
    ) -> Result<(), XmlError>
        requires ready { IsReady (state_of self.old.machine) (built B.Builder builder.old) }
        requires count { count_of self.old + length piece.now < 2 ^ 64 }
        ensures ok { OnOk result ((from : State) (calls : List Event) (fed : List ℕ) → StandsFrom from self.old calls fed →
            ReadsOn from self.new (B.log builder.old) (B.log builder.new) calls (fed ++ piece.now)) }
        ensures ready { OnOk result (IsReady (state_of self.new.machine) (built B.Builder builder.new)) }
        ensures count { OnOk result (count_of self.new ≡ count_of self.old + length piece.now) }
        ensures broken { (at : ℕ) → result ≡ Err (XmlError.Bad at) → (from : State) (calls : List Event) (fed : List ℕ) → StandsFrom from self.old calls fed →
            BreaksFrom from (fed ++ piece.now) at }
        ensures failed { self.new.failed ≡ self.old.failed }
    {
        match feed_tokens(
            alloc,
            piece,
            &mut self.tokenizer,
            &mut self.machine,
            builder,
        ) {
            Ok(()) => Ok(()),
            Err(TokenError::Bad) => Err(self.bad()),
            Err(TokenError::Memory) => Err(XmlError::Memory),
        }
    }

    fn fail(&mut self, error: XmlError) -> XmlError
        ensures result { result ≡ error }
        ensures failed { self.new.failed ≡ Some error }
    {
        self.failed = Some(error);
        error
    }

    /// Ends the bytes. An Ok says that they spell a document, and that its calls were made.
    ///
    /// `Bad` comes exactly where they spell none, and tells the place.
    pub fn finish(self) -> Result<(), XmlError>
        ensures document { OnOk result ((calls : List Event) (fed : List ℕ) → IsFed self calls fed → (t : Tree) × Spells fed t × (calls ≡ events t [])) }
        ensures depth { OnOk result ((calls : List Event) (fed : List ℕ) → IsFed self calls fed → depth_of self ≡ 0) }
        ensures bad { (at : ℕ) → result ≡ Err (XmlError.Bad at) → (calls : List Event) (fed : List ℕ) → IsFed self calls fed → IsBad fed at }
        ensures again { (e : XmlError) → self.failed ≡ Some e → result ≡ Err e }
        ensures memory { result ≡ Err XmlError.Memory → self.failed ≡ Some XmlError.Memory }
    {
        if let Some(e) = self.failed {
            return Err(e);
        }
        if self.is_done() {
            Ok(())
        } else {
            Err(self.bad())
        }
    }

    // The bytes are bad where the token begins that is not whole.
    fn bad(&self) -> XmlError
        ensures { result ≡ XmlError.Bad self.now.tokenizer.start }
    {
        XmlError::Bad {
            at: self.tokenizer.start(),
        }
    }

    // Whether the bytes fed spell a document.
    fn is_done(&self) -> bool
        ensures done { IsTrue result → (calls : List Event) (fed : List ℕ) → Stands self.now calls fed → EndsDocument self.now calls fed }
        ensures broken { result ≡ false → (calls : List Event) (fed : List ℕ) → Stands self.now calls fed → (t : Tree) → Spells fed t → ⊥ }
    {
        self.tokenizer.is_whole() && self.machine.may_end()
    }
}
