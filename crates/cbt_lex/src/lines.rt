//! Lines, without their ends and without the spaces around them.

ghost use Rattle.std.specs.Prelude.{◌≡◌, ◌<◌, ◌==◌, IfSome, length, position, reverse};
ghost use Rattle.cbt_lex.specs.Lines.{line_and_rest, without_return, skip_spaces, trimmed};

/// The first line of a text, without its line feed and without one carriage return before that, and
/// the text behind it. A last line may lack the line feed, and then keeps its carriage return.
pub fn cut_line(text: &[u8]) -> (&[u8], &[u8])
    ensures { (result.0.now, result.1.now) ≡ line_and_rest text.now }
{
    match first_feed(text) {
        Some(at) => (up_to_return(&text[..at]), &text[at + 1..]),
        None => (text, &[]),
    }
}

// The place of the first line feed.
fn first_feed(text: &[u8]) -> Option<usize>
    ensures place { result ≡ position (λ b. b == 10) text.now }
    ensures within { IfSome result (λ at. at < length text.now) }
{
    text.iter().position(|byte| *byte == b'\n')
}

// A line without one carriage return at its end.
fn up_to_return(line: &[u8]) -> &[u8]
    ensures { result.now ≡ without_return line.now }
{
    if let [front @ .., last] = line
        && *last == b'\r'
    {
        front
    } else {
        line
    }
}

/// A line without the spaces before and behind it.
pub fn trim(line: &[u8]) -> &[u8]
    ensures { result.now ≡ trimmed line.now }
{
    trim_end(trim_start(line))
}

fn trim_start(mut line: &[u8]) -> &[u8]
    ensures { result.now ≡ skip_spaces line.now }
{
    while let [first, rest @ ..] = line
        && *first == b' '
    {
        line = rest;
    }
    line
}

fn trim_end(mut line: &[u8]) -> &[u8]
    ensures { result.now ≡ reverse (skip_spaces (reverse line.now)) }
{
    while let [front @ .., last] = line
        && *last == b' '
    {
        line = front;
    }
    line
}
