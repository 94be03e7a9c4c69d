//! What became of a write.

use cbt_base::Id;
use cbt_book::When;

/// How the staging of a write ended.
#[derive(Clone, Copy, Debug, PartialEq, Eq)]
pub enum PutEnd {
    /// It was staged by the call at this place, over what was read at this moment or written before.
    Staged { place: u64, base: When },
    /// The own insert was taken back by the call at this place.
    Unstaged { place: u64 },
    /// The entry of this attempt, whose write waits in the document, stood for longer than a put waits.
    Blocked { by: Id },
    /// The document was changed since it was read or written.
    Moved,
    /// The call at this place failed.
    CallFailed { place: u64 },
}
