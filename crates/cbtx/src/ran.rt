//! What a run of the program leaves.

ghost use Rattle.std.specs.Prelude.{◌≡◌, None};

use cbt_book::Book;
use cbt_script::Script;

/// How a run ended.
///
/// The status is 0 where all was done and written, 1 where the input is no script, 2 where the words are
/// no command, 3 where the source failed, 4 where the sink failed, 5 where memory ran out, and 6 where
/// the input has more than 4,194,304 bytes.
#[derive(Drop)]
pub struct Ran {
    pub status: u8,
    /// What the run left, where it was made.
    pub book: Option<Book>,
    /// The script, where the book is there, and where it was drawn to be handed back.
    pub script: Option<Script>,
}

impl Ran {
    /// A run that left nothing.
    pub(crate) fn ended(status: u8) -> Ran
        ensures status { result.status ≡ status }
        ensures book { result.book ≡ None }
        ensures script { result.script ≡ None }
    {
        Ran {
            status,
            book: None,
            script: None,
        }
    }
}
