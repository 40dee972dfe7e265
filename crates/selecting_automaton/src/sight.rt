// What a turn sees of a symbol.
ghost use Rattle.std.specs.Prelude.{◌≡◌, ◌%◌, ◌/◌};
ghost use Rattle.selecting_automaton.specs.Wanting.{base_of, mark_in, kind_in, eyes};

use crate::turns::Wanted;
use plain_tree::Kind;

/// A symbol with its kind. A symbol that the kinds lack is read as a document's.
#[derive(Clone, Copy)]
pub(crate) struct Sight<'a> {
    kinds: &'a [Kind],
    symbol: usize,
    base: usize,
    mark: usize,
    kind: Kind,
    ghost without_mark: { base ≡ base_of kinds.now symbol },
    ghost marked: { mark ≡ mark_in kinds.now symbol },
    ghost right: { kind ≡ kind_in kinds.now symbol },
}

/// A symbol without its mark, and the mark, where so many symbols have none. Most symbols have none, and take no division.
fn split(symbol: usize, count: usize) -> (usize, usize)
    ensures base { result.0 ≡ symbol % count }
    ensures mark { result.1 ≡ symbol / count }
{
    if symbol < count || count == 0 {
        (symbol, 0)
    } else {
        (symbol % count, symbol / count)
    }
}

impl<'a> Sight<'a> {
    pub(crate) fn new(kinds: &'a [Kind], symbol: usize) -> Sight<'a>
        ensures kinds { result.kinds.now ≡ kinds.now }
        ensures symbol { result.symbol ≡ symbol }
    {
        let (base, mark) = split(symbol, kinds.len());
        let kind = match kinds.get(base) {
            Some(kind) => *kind,
            None => Kind::Document,
        };
        Sight {
            kinds,
            symbol,
            base,
            mark,
            kind,
        }
    }

    pub(crate) fn is_attribute(&self) -> bool
        ensures { result ≡ (eyes self.now.kinds.now).attribute self.now.symbol }
    {
        matches!(self.kind, Kind::Attribute)
    }

    /// Whether a step takes the symbol.
    pub(crate) fn is(&self, wanted: Wanted) -> bool
        ensures { result ≡ (eyes self.now.kinds.now).takes wanted self.now.symbol }
    {
        match wanted {
            Wanted::Nothing => false,
            Wanted::Anything => true,
            Wanted::OfKind(kind) => kind == self.kind,
            Wanted::Named(symbol) => symbol == self.base,
            Wanted::TextWith(mark) => matches!(self.kind, Kind::Text) && mark == self.mark,
            Wanted::Exactly(symbol) => symbol == self.symbol,
        }
    }
}
