// What the tokens of a model are.

/// A token, a name by its bytes.
#[derive(Clone, Copy, Debug, PartialEq, Eq)]
pub(crate) enum Token<'a> {
    Word(&'a [u8]),
    Open,
    Close,
    Comma,
    Bar,
    Question,
    Star,
    Plus,
}
