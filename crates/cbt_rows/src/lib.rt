//! Histories written out by hand, with their logs, on which it is tried what the definitions refuse. Each
//! function does nothing: what it ensures is the trial. What runs meet, each run of the program shows by its
//! contract.
#![tactic(auto)]

mod called;
mod misread;
mod unlawful;
mod unlicensed;
mod unplanned;

pub use called::laws_where_cleaner_frees_pending_stage;
pub use misread::{
    answers_that_are_right, document_that_changes_hands, hands_that_change,
    passes_that_are_not_logged, passes_that_do_not_follow, readings_without_second_read,
    rounds_that_do_not_follow, shares, spans_that_do_not_follow,
};
pub use unlawful::{
    answers_that_are_not_right, entry_added_again, invariants_that_are_broken,
    laws_that_are_broken, runs_that_are_not_legal,
};
pub use unlicensed::{
    aborts_that_may_not_be_sent, beats_that_may_not_be_made, commits_that_may_not_be_sent,
    entries_that_may_not_be_added, entries_that_may_not_be_dropped, stagings_that_may_not_be_made,
    stagings_that_may_not_be_taken_off,
};
pub use unplanned::{
    attempts_that_do_otherwise, bases_of_another_reading, calls_that_do_not_fit,
    clients_that_do_otherwise, commits_that_do_not_hold, needs_that_do_otherwise,
    stagings_that_carry_another_write, stops_that_are_not_kept, transactions_that_end_otherwise,
};
