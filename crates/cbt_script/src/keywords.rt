//! The first words of lines.

ghost use Rattle.std.specs.Prelude.{◌≡◌};
ghost use Rattle.cbt_script.specs.Keywords.{setting_of, setup_of, operation_of, course_of, keyword_of};

/// A setting, in the order in which settings stand.
#[derive(Clone, Copy, Debug, PartialEq, Eq)]
pub(crate) enum Setting {
    Atrs,
    Expiry,
    Tries,
    Lapse,
    Clock,
}

/// An operation of a transaction.
#[derive(Clone, Copy, Debug, PartialEq, Eq)]
pub(crate) enum Operation {
    Get,
    Insert,
    Replace,
    Remove,
    Need,
}

/// What a line is, by its first word.
#[derive(Clone, Copy, Debug, PartialEq, Eq)]
pub(crate) enum Keyword {
    Setting(Setting),
    Doc,
    Attrs,
    Client,
    Begin,
    Operation(Operation),
    Commit,
    Rollback,
    Cleaner,
    Stop,
    Lost,
    Late,
    Order,
    Sweep,
}

/// What the first word says that the line is.
#[tactic(auto, unfolding(crate::specs::Keywords::keyword_of))]
pub(crate) fn keyword_at(word: &str) -> Option<Keyword>
    ensures { result ≡ keyword_of word.now }
{
    match setting_line(word) {
        Some(keyword) => Some(keyword),
        None => match setup_line(word) {
            Some(keyword) => Some(keyword),
            None => match operation_line(word) {
                Some(keyword) => Some(keyword),
                None => course_line(word),
            },
        },
    }
}

fn setting_line(word: &str) -> Option<Keyword>
    ensures { result ≡ setting_of word.now }
{
    match word {
        "atrs" => Some(Keyword::Setting(Setting::Atrs)),
        "expiry" => Some(Keyword::Setting(Setting::Expiry)),
        "tries" => Some(Keyword::Setting(Setting::Tries)),
        "lapse" => Some(Keyword::Setting(Setting::Lapse)),
        "clock" => Some(Keyword::Setting(Setting::Clock)),
        _ => None,
    }
}

fn setup_line(word: &str) -> Option<Keyword>
    ensures { result ≡ setup_of word.now }
{
    match word {
        "doc" => Some(Keyword::Doc),
        "attrs" => Some(Keyword::Attrs),
        "client" => Some(Keyword::Client),
        "begin" => Some(Keyword::Begin),
        "cleaner" => Some(Keyword::Cleaner),
        _ => None,
    }
}

fn operation_line(word: &str) -> Option<Keyword>
    ensures { result ≡ operation_of word.now }
{
    match word {
        "get" => Some(Keyword::Operation(Operation::Get)),
        "insert" => Some(Keyword::Operation(Operation::Insert)),
        "replace" => Some(Keyword::Operation(Operation::Replace)),
        "remove" => Some(Keyword::Operation(Operation::Remove)),
        "need" => Some(Keyword::Operation(Operation::Need)),
        "commit" => Some(Keyword::Commit),
        "rollback" => Some(Keyword::Rollback),
        _ => None,
    }
}

fn course_line(word: &str) -> Option<Keyword>
    ensures { result ≡ course_of word.now }
{
    match word {
        "stop" => Some(Keyword::Stop),
        "lost" => Some(Keyword::Lost),
        "late" => Some(Keyword::Late),
        "order" => Some(Keyword::Order),
        "sweep" => Some(Keyword::Sweep),
        _ => None,
    }
}
