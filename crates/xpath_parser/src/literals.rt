// The values that comparisons name in a query's postfix code.
ghost use Rattle.std.specs.Prelude.{◌≡◌, ◌-◌, IfOk, reverse, take, drop};
ghost use Rattle.xpath_parser.specs.Comparing.{literals_told};
ghost use Rattle.xpath_parser.specs.Meant.{part};

use crate::postfix::Op;
use crate::token::Span;
use plain_tree::Bytes;
use std::alloc::{AllocError, Global};

/// The bytes at a place, as far as they are there.
pub(crate) fn part(bytes: &[u8], span: Span) -> &[u8]
    ensures { result.now ≡ part bytes.now span }
{
    let from = span.from.min(bytes.len());
    let rest = &bytes[from..];
    let count = span.to.saturating_sub(span.from).min(rest.len());
    &rest[..count]
}

/// The values of the comparisons among the operations, in their order. They are refused only for want of memory.
pub(crate) fn literals_told(
    alloc: Global,
    bytes: &[u8],
    ops: &[Op],
) -> Result<Vec<Bytes>, AllocError>
    ensures { IfOk result (λ literals. literals.items ≡ literals_told bytes.now (reverse ops.now)) }
{
    let mut literals = Vec::new(alloc);
    'ops: for op in ops {
        if let Op::Compare(_, value) = *op {
            literals.push(Bytes::from_slice(alloc, part(bytes, value))?)?;
        }
    }
    Ok(literals)
}
