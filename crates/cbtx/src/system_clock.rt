//! The system's clock.

use cbt_base::Clock;
use std::time::{SystemTime, UNIX_EPOCH};

/// The system's time, in milliseconds since 1970, or 0 where the system has none. It does not tell
/// its readings.
#[derive(Drop)]
pub struct SystemClock<'a, R> {
    rt: &'a R,
}

impl<'a, R> SystemClock<'a, R> {
    pub fn new(rt: &'a R) -> SystemClock<'a, R> {
        SystemClock { rt }
    }
}

impl<R: std::rt::Clock> Clock for SystemClock<'_, R> {
    ghost due = { λ clock readings. ⊥ };

    fn read(&mut self) -> u64 {
        let Ok(now) = SystemTime::now(self.rt) else {
            return 0;
        };
        match now.duration_since(UNIX_EPOCH) {
            Ok(since) => u64::try_from(since.as_millis()).unwrap_or(u64::MAX),
            Err(_) => 0,
        }
    }
}
