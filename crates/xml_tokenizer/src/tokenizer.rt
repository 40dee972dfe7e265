// Tokens of bytes that come in pieces.
ghost use Rattle.std.specs.Prelude.{◌≡◌, ◌++◌, ◌∷◌, ◌+◌, ◌<◌, ◌≤◌, ◌^◌, ℕ, List, [], length, OnOk, IfOk, Err, None, IsTrue, Bool, true, false};
ghost use Rattle.xml_tokens.specs.Tokens.{Token, AreTokens, IsToken};
ghost use Rattle.xml_tokens.specs.Cutting.{Begins};
ghost use Rattle.xml_tokenizer.specs.LineEnds.{line_ends};
ghost use Rattle.xml_tokenizer.specs.Runs.{IsRun};
ghost use Rattle.xml_tokenizer.specs.Taking.{Takes};
ghost use Rattle.xml_tokenizer.specs.Standing.{Stands, GoesOn, BreaksAt, NoneFollow, Advances, Breaks, ReadsPiece};

use crate::runs::skip_run;
use crate::scan::{Ended, Scan, end_in};
use crate::sink::{Refused, RunRefused, TokenSink};
use std::alloc::{AllocError, Global};
use xml_tokens::{read_token, skip_to};

/// Why bytes were not read.
#[derive(Clone, Copy, Debug, PartialEq, Eq, Drop)]
pub enum TokenError {
    /// They are no tokens, however they go on, or the sink refused one.
    Bad,
    /// There was no memory, here or for the sink.
    Memory,
}

impl From<AllocError> for TokenError {
    ghost use Rattle.std.specs.Prelude.{◌≡◌};
    ghost use Rattle.xml_tokenizer.specs.declared.tokenizer.TokenError.TheVariants.{Memory};

    ghost from_gives = { λ _ e. e ≡ Memory };

    fn from(_: AllocError) -> TokenError {
        TokenError::Memory
    }
}

/// Cuts bytes into tokens. It holds the bytes of a token that is not whole, with line ends done.
///
/// After an error no further call is to be made but that of `start`: nothing is promised of one.
#[derive(Drop)]
pub struct Tokenizer {
    held: Vec<u8>,
    // how far the scan over the bytes held has come
    scan: Scan,
    // the last byte that came was a #xD
    after_return: bool,
    // how many bytes came, and how many of them stand in front of the token that is held
    count: u64,
    start: u64,
}

impl Tokenizer {
    /// Nothing has come.
    pub fn new(alloc: Global) -> Tokenizer
        ensures stands { Stands result [] [] }
        ensures count { result.count ≡ 0 }
    {
        Tokenizer {
            held: Vec::new(alloc),
            scan: Scan::Idle,
            after_return: false,
            count: 0,
            start: 0,
        }
    }

    /// How many bytes came.
    pub fn count(&self) -> u64
        ensures { result ≡ self.now.count }
    {
        self.count
    }

    /// How many bytes stand in front of the token that is not whole; a #xA that belongs to a #xD at the end of the token
    /// before counts too. After `Bad` it is the place at which the bytes break.
    pub fn start(&self) -> u64
        ensures { result ≡ self.now.start }
    {
        self.start
    }

    /// Reads the next piece, which may end anywhere, and gives its tokens to the sink. All bytes together are fewer than 2^64.
    ///
    /// `Bad`: the bytes that came begin no tokens that the sink takes, and `start` tells where the token begins in which they
    /// break. `Memory`: there was none, here or in the sink.
    pub fn feed<S: TokenSink>(
        &mut self,
        alloc: Global,
        piece: &[u8],
        sink: &mut S,
    ) -> Result<(), TokenError>
        requires ready { S.IsReady (S.state sink.old) }
        requires count { self.old.count + length piece.now < 2 ^ 64 }
        ensures ready { OnOk result (S.IsReady (S.state sink.new)) }
        ensures lenders { S.lenders sink.new ≡ S.lenders sink.old }
        ensures ok { OnOk result ((tokens : List Token) (fed : List ℕ) → Stands self.old tokens fed →
            GoesOn S.step (λ ts. Stands self.new ts (fed ++ piece.now)) (S.state sink.old) (S.state sink.new) tokens) }
        ensures count { OnOk result (self.new.count ≡ self.old.count + length piece.now) }
        ensures bad { result ≡ Err TokenError.Bad → (tokens : List Token) (fed : List ℕ) → Stands self.old tokens fed →
            NoneFollow S.step (S.state sink.old) tokens (fed ++ piece.now) }
        ensures place { result ≡ Err TokenError.Bad → (tokens : List Token) (fed : List ℕ) → Stands self.old tokens fed →
            BreaksAt S.step (S.state sink.old) tokens (fed ++ piece.now) self.new.start }
    {
        self.read_piece(alloc, piece, sink)
    }

    /// Whether the bytes that came are whole tokens.
    pub fn is_whole(&self) -> bool
        ensures whole { IsTrue result → (tokens : List Token) (fed : List ℕ) → Stands self.now tokens fed → AreTokens tokens (line_ends fed) [] }
        ensures broken { result ≡ false → (tokens others : List Token) (fed : List ℕ) → Stands self.now tokens fed → AreTokens others (line_ends fed) [] → ⊥ }
    {
        is_none(self.held.as_slice())
    }

    fn read_piece<S: TokenSink>(
        &mut self,
        alloc: Global,
        piece: &[u8],
        sink: &mut S,
    ) -> Result<(), TokenError>
        requires ready { S.IsReady (S.state sink.old) }
        requires count { self.old.count + length piece.now < 2 ^ 64 }
        ensures ready { OnOk result (S.IsReady (S.state sink.new)) }
        ensures lenders { S.lenders sink.new ≡ S.lenders sink.old }
        ensures ok { OnOk result (ReadsPiece S.step self.old self.new (S.state sink.old) (S.state sink.new) piece.now []) }
        ensures place { result ≡ Err TokenError.Bad → (tokens : List Token) (fed : List ℕ) → Stands self.old tokens fed →
            BreaksAt S.step (S.state sink.old) tokens (fed ++ piece.now) self.new.start }
    {
        let mut rest = piece;
        while !rest.is_empty() {
            match self.take_line(alloc, rest, sink) {
                Ok(after) => rest = after,
                Err(e) => return Err(e),
            }
        }
        Ok(())
    }

    // A #xA that belongs to the #xD before it, or a #xD, or the bytes in front of the next.
    fn take_line<'a, S: TokenSink>(
        &mut self,
        alloc: Global,
        piece: &'a [u8],
        sink: &mut S,
    ) -> Result<&'a [u8], TokenError>
        requires some { 0 < length piece.now }
        requires ready { S.IsReady (S.state sink.old) }
        requires count { self.old.count + length piece.now < 2 ^ 64 }
        ensures ready { OnOk result (S.IsReady (S.state sink.new)) }
        ensures lenders { S.lenders sink.new ≡ S.lenders sink.old }
        ensures ok { IfOk result (λ after. ReadsPiece S.step self.old self.new (S.state sink.old) (S.state sink.new) piece.now after.now) }
        ensures shorter { IfOk result (λ after. length after.now < length piece.now) }
        ensures place { result ≡ Err TokenError.Bad → (tokens : List Token) (fed : List ℕ) → Stands self.old tokens fed →
            BreaksAt S.step (S.state sink.old) tokens (fed ++ piece.now) self.new.start }
    {
        let first = piece[0];
        if self.after_return && first == b'\n' {
            self.drop_feed();
            return Ok(&piece[1..]);
        }
        if first == b'\r' {
            match self.take(alloc, b"\n", sink) {
                Ok(()) => {}
                Err(e) => return Err(e),
            }
            self.after_return = true;
            return Ok(&piece[1..]);
        }
        let left = skip_to(b'\r', piece);
        match self.take(alloc, &piece[..piece.len() - left.len()], sink) {
            Ok(()) => {}
            Err(e) => return Err(e),
        }
        self.after_return = false;
        Ok(left)
    }

    // A #xA that belongs to a #xD counts, and stands in front of the next token if it stands in none.
    fn drop_feed(&mut self)
        requires { self.old.count + 1 < 2 ^ 64 }
        ensures held { self.new.held ≡ self.old.held }
        ensures scan { self.new.scan ≡ self.old.scan }
        ensures after_return { self.new.after_return ≡ false }
        ensures count { self.new.count ≡ self.old.count + 1 }
        ensures idle { self.old.held.items ≡ [] → self.new.start ≡ self.old.count + 1 }
        ensures busy { 0 < length self.old.held.items → self.new.start ≡ self.old.start }
    {
        self.count += 1;
        if self.held.is_empty() {
            self.start = self.count;
        }
        self.after_return = false;
    }

    // Bytes whose line ends are done.
    fn take<S: TokenSink>(
        &mut self,
        alloc: Global,
        bytes: &[u8],
        sink: &mut S,
    ) -> Result<(), TokenError>
        requires ready { S.IsReady (S.state sink.old) }
        requires count { self.old.count + length bytes.now < 2 ^ 64 }
        ensures ready { OnOk result (S.IsReady (S.state sink.new)) }
        ensures lenders { S.lenders sink.new ≡ S.lenders sink.old }
        ensures ok { OnOk result (Advances S.step self.old self.new (S.state sink.old) (S.state sink.new) bytes.now []) }
        ensures place { result ≡ Err TokenError.Bad → Breaks S.step self.old self.new.start (S.state sink.old) bytes.now }
    {
        let mut rest = bytes;
        while !rest.is_empty() {
            match self.advance(alloc, rest, sink) {
                Ok(after) => rest = after,
                Err(e) => return Err(e),
            }
        }
        Ok(())
    }

    // One run, or one token, or what there is of it.
    fn advance<'a, S: TokenSink>(
        &mut self,
        alloc: Global,
        rest: &'a [u8],
        sink: &mut S,
    ) -> Result<&'a [u8], TokenError>
        requires some { 0 < length rest.now }
        requires ready { S.IsReady (S.state sink.old) }
        requires count { self.old.count + length rest.now < 2 ^ 64 }
        ensures ready { OnOk result (S.IsReady (S.state sink.new)) }
        ensures lenders { S.lenders sink.new ≡ S.lenders sink.old }
        ensures ok { IfOk result (λ after. Advances S.step self.old self.new (S.state sink.old) (S.state sink.new) rest.now after.now) }
        ensures shorter { IfOk result (λ after. length after.now < length rest.now) }
        ensures place { result ≡ Err TokenError.Bad → Breaks S.step self.old self.new.start (S.state sink.old) rest.now }
    {
        if !self.held.is_empty() {
            return self.take_token(alloc, rest, sink);
        }
        let left = skip_run(rest);
        if left.len() < rest.len() {
            self.take_run(rest, left, sink)
        } else {
            self.take_token(alloc, rest, sink)
        }
    }

    // Where nothing is held, a run of characters.
    fn take_run<'a, S: TokenSink>(
        &mut self,
        rest: &[u8],
        left: &'a [u8],
        sink: &mut S,
    ) -> Result<&'a [u8], TokenError>
        requires ready { S.IsReady (S.state sink.old) }
        requires run { Begins IsRun rest.now left.now }
        requires shorter { length left.now < length rest.now }
        requires none_held { self.old.held.items ≡ [] }
        requires count { self.old.count + length rest.now < 2 ^ 64 }
        ensures ready { OnOk result (S.IsReady (S.state sink.new)) }
        ensures lenders { S.lenders sink.new ≡ S.lenders sink.old }
        ensures ok { IfOk result (λ after. Advances S.step self.old self.new (S.state sink.old) (S.state sink.new) rest.now after.now) }
        ensures left { IfOk result (λ after. after.now ≡ left.now) }
        ensures place { result ≡ Err TokenError.Bad → Breaks S.step self.old self.new.start (S.state sink.old) rest.now }
    {
        let text = &rest[..rest.len() - left.len()];
        match sink.run(text) {
            Ok(()) => {
                self.pass(text.len());
                Ok(left)
            }
            Err(RunRefused::Here { at }) => {
                self.pass(at);
                Err(TokenError::Bad)
            }
            Err(RunRefused::Memory) => Err(TokenError::Memory),
        }
    }

    // The token that the bytes held begin and these go on, or what there is of it.
    fn take_token<'a, S: TokenSink>(
        &mut self,
        alloc: Global,
        rest: &'a [u8],
        sink: &mut S,
    ) -> Result<&'a [u8], TokenError>
        requires some { 0 < length rest.now }
        requires ready { S.IsReady (S.state sink.old) }
        requires count { self.old.count + length rest.now < 2 ^ 64 }
        ensures ready { OnOk result (S.IsReady (S.state sink.new)) }
        ensures lenders { S.lenders sink.new ≡ S.lenders sink.old }
        ensures ok { IfOk result (λ after. Advances S.step self.old self.new (S.state sink.old) (S.state sink.new) rest.now after.now) }
        ensures shorter { IfOk result (λ after. length after.now < length rest.now) }
        ensures place { result ≡ Err TokenError.Bad → Breaks S.step self.old self.new.start (S.state sink.old) rest.now }
    {
        match end_in(self.scan, rest) {
            Ended::Whole(after) => {
                let n = rest.len() - after.len();
                match self.give_whole(alloc, &rest[..n], sink) {
                    Ok(()) => {
                        self.pass(n);
                        Ok(after)
                    }
                    Err(e) => Err(e),
                }
            }
            Ended::On(scan) => {
                self.hold(rest, scan)?;
                Ok(&[])
            }
            Ended::Dead(_) => Err(TokenError::Bad),
        }
    }

    // The token that the bytes held and these are goes to the sink. One that lies whole in a piece isn't copied.
    fn give_whole<S: TokenSink>(
        &mut self,
        alloc: Global,
        bytes: &[u8],
        sink: &mut S,
    ) -> Result<(), TokenError>
        requires { S.IsReady (S.state sink.old) }
        ensures ready { OnOk result (S.IsReady (S.state sink.new)) }
        ensures lenders { S.lenders sink.new ≡ S.lenders sink.old }
        ensures ok { OnOk result (Takes S.step (S.state sink.old) (S.state sink.new) (self.old.held.items ++ bytes.now)) }
        ensures held { OnOk result (self.new.held.items ≡ []) }
        ensures bad { result ≡ Err TokenError.Bad → (t : Token) → IsToken t (self.old.held.items ++ bytes.now) → S.step (S.state sink.old) t ≡ None }
        ensures after_return { self.new.after_return ≡ self.old.after_return }
        ensures count { self.new.count ≡ self.old.count }
        ensures start { self.new.start ≡ self.old.start }
    {
        if is_none(self.held.as_slice()) {
            return give(alloc, bytes, sink);
        }
        self.held.extend_from_slice(bytes)?;
        match give(alloc, self.held.as_slice(), sink) {
            Ok(()) => {
                self.held.clear();
                Ok(())
            }
            Err(e) => Err(e),
        }
    }

    // So many bytes came, and with them nothing is held any more.
    fn pass(&mut self, n: usize)
        requires { self.old.count + n < 2 ^ 64 }
        ensures held { self.new.held ≡ self.old.held }
        ensures scan { self.new.scan ≡ Scan.Idle }
        ensures after_return { self.new.after_return ≡ self.old.after_return }
        ensures count { self.new.count ≡ self.old.count + n }
        ensures start { self.new.start ≡ self.old.count + n }
    {
        self.scan = Scan::Idle;
        self.count += n as u64;
        self.start = self.count;
    }

    // The bytes are held, over which the scan has come so far.
    fn hold(&mut self, bytes: &[u8], scan: Scan) -> Result<(), AllocError>
        requires { self.old.count + length bytes.now < 2 ^ 64 }
        ensures held { OnOk result (self.new.held.items ≡ self.old.held.items ++ bytes.now) }
        ensures scan { OnOk result (self.new.scan ≡ scan) }
        ensures count { OnOk result (self.new.count ≡ self.old.count + length bytes.now) }
        ensures start { OnOk result (self.new.start ≡ self.old.start) }
    {
        self.held.extend_from_slice(bytes)?;
        self.scan = scan;
        self.count += bytes.len() as u64;
        Ok(())
    }
}

// The token that the text is goes to the sink.
fn give<S: TokenSink>(alloc: Global, text: &[u8], sink: &mut S) -> Result<(), TokenError>
    requires { S.IsReady (S.state sink.old) }
    ensures ready { OnOk result (S.IsReady (S.state sink.new)) }
    ensures lenders { S.lenders sink.new ≡ S.lenders sink.old }
    ensures ok { OnOk result (Takes S.step (S.state sink.old) (S.state sink.new) text.now) }
    ensures bad { result ≡ Err TokenError.Bad → (t : Token) → IsToken t text.now → S.step (S.state sink.old) t ≡ None }
{
    match read_token(alloc, text)? {
        Some(found) => match sink.token(found) {
            Ok(()) => Ok(()),
            Err(Refused::Here) => Err(TokenError::Bad),
            Err(Refused::Memory) => Err(TokenError::Memory),
        },
        None => Err(TokenError::Bad),
    }
}

fn is_none(bytes: &[u8]) -> bool
    ensures none { IsTrue result → bytes.now ≡ [] }
    ensures some { result ≡ false → bytes.now ≡ [] → ⊥ }
{
    match bytes {
        [] => true,
        [_, ..] => false,
    }
}
