//! Fixed pieces of a text.
ghost use Rattle.std.specs.Prelude.{◌≡◌, ◌<◌, length, drop, slice_index};
ghost use Rattle.std.specs.Option.{option_copied};
ghost use Rattle.cbt_syntax.specs.Pieces.{behind};

/// What stands behind a piece at the front of a text, where it is there.
pub(crate) fn behind<'a>(text: &'a str, piece: &str) -> Option<&'a str>
    ensures { option_copied result ≡ behind piece.now text.now }
{
    text.strip_prefix(piece)
}

/// What stands behind the first byte, which is ASCII.
pub(crate) fn behind_first(text: &str) -> &str
    requires { (0 < length text.now) × (slice_index text.now 0 < 128) }
    ensures { result.now ≡ drop 1 text.now }
{
    text.split_at(1).1
}
