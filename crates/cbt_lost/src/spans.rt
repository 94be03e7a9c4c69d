//! The spans of rounds and passes, as their calls come.

ghost use Rattle.std.specs.Prelude.{◌≡◌, ◌<◌, ◌^◌};
ghost use Rattle.cbt_lost.specs.Tours.{grown};

use cbt_book::Span;

// A span of calls once a call at this place was added. Without calls its ends are the same.
pub(crate) fn grown(span: Span, place: u64) -> Span
    requires { place < 2 ^ 62 }
    ensures { result ≡ grown span place }
{
    let from = if span.from == span.to {
        place
    } else {
        span.from
    };
    Span {
        from,
        to: place + 1,
    }
}
