//! Words, which are parted by one or more spaces.

ghost use Rattle.std.specs.Prelude.{◌≡◌};
ghost use Rattle.cbt_lex.specs.Lines.{skip_spaces};
ghost use Rattle.cbt_lex.specs.Words.{word_and_rest};

/// The word at the front of a text that begins with one, and what stands behind it and the spaces
/// that follow it.
pub fn cut_word(text: &str) -> (&str, &str)
    ensures { (result.0.now, result.1.now) ≡ word_and_rest text.now }
{
    match text.split_once(' ') {
        Some((word, rest)) => (word, past_spaces(rest)),
        None => (text, ""),
    }
}

/// A text without the spaces at its front.
pub fn past_spaces(mut text: &str) -> &str
    ensures { result.now ≡ skip_spaces text.now }
{
    while let Some(rest) = text.strip_prefix(' ') {
        text = rest;
    }
    text
}
