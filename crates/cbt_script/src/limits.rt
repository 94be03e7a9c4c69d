//! The limits of a script.

/// Active transaction records.
pub(crate) const MAX_ATRS: u64 = 1024;

/// An expiry, a hold or a lapse, in milliseconds.
pub(crate) const MAX_TIME: u64 = 86_400_000;

/// Tries of a transaction.
pub(crate) const MAX_TRIES: u64 = 16;

/// The first reading of a clock, and how far a clock is moved ahead, in milliseconds.
pub(crate) const MAX_MS: u64 = (1 << 43) - 1;

/// From one reading of the clock to the next, in milliseconds.
pub(crate) const MAX_STEP: u64 = 1_000_000;

/// Documents of a script.
pub(crate) const MAX_DOCS: usize = 65_536;

/// Clients of a script.
pub(crate) const MAX_CLIENTS: usize = 64;

/// Transactions of a client.
pub(crate) const MAX_TXNS: usize = 1024;

/// Operations of a transaction.
pub(crate) const MAX_OPS: usize = 256;

/// The sum of operations times tries over all transactions.
pub(crate) const MAX_TRIED: u64 = 16_384;

/// Cleaners of a script.
pub(crate) const MAX_CLEANERS: usize = 16;

/// Rounds of a cleaner.
pub(crate) const MAX_ROUNDS: u64 = 65_536;

/// The sum of rounds times records over all cleaners.
pub(crate) const MAX_PASSES: u64 = 65_536;

/// The number of a call.
pub(crate) const MAX_CALL: u64 = 1_000_000;

/// The records of a script that gives no number of them.
pub(crate) const DEFAULT_ATRS: u16 = 16;

/// The expiry of a script that gives none, in milliseconds.
pub(crate) const DEFAULT_EXPIRY: u64 = 15_000;

/// The tries of a script that gives none.
pub(crate) const DEFAULT_TRIES: u32 = 8;

/// The lapse of a script that gives none, in milliseconds.
pub(crate) const DEFAULT_LAPSE: u64 = 60_000;
