//! Names.

ghost use Rattle.std.specs.Prelude.{◌≡◌};
ghost use Rattle.std.specs.List.{list_all};
ghost use Rattle.cbt_lex.specs.Names.{is_name, is_name_byte};

/// Whether a word is a name: a lower-case letter and up to 31 lower-case letters, digits or `_`.
pub fn is_a_name(word: &str) -> bool
    ensures { result ≡ is_name word.now }
{
    match word.as_bytes() {
        [first, rest @ ..] => first.is_ascii_lowercase() && rest.len() <= 31 && all_of_name(rest),
        [] => false,
    }
}

fn all_of_name(bytes: &[u8]) -> bool
    ensures { result ≡ list_all is_name_byte bytes.now }
{
    bytes.iter().all(|byte| may_stand_in_name(*byte))
}

/// Whether a byte may stand in a name behind its first: a lower-case letter, a digit or `_`.
pub fn may_stand_in_name(byte: u8) -> bool
    ensures { result ≡ is_name_byte byte }
{
    byte.is_ascii_lowercase() || byte.is_ascii_digit() || byte == b'_'
}
