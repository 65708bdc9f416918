use pcg_base::Clock;
use std::rt;

/// The system's clock: milliseconds since 1970, and 0 where it can't be read.
#[derive(Drop)]
pub struct SystemClock<'a, R: rt::Clock> {
    rt: &'a R,
}

impl<'a, R: rt::Clock> SystemClock<'a, R> {
    /// The clock of a runtime.
    pub fn new(rt: &'a R) -> SystemClock<'a, R> {
        SystemClock { rt }
    }
}

impl<'a, R: rt::Clock> Clock for SystemClock<'a, R> {
    fn now(&self) -> u64 {
        match self.rt.since_1970() {
            Ok(time) => u64::try_from(time.as_millis()).unwrap_or(u64::MAX),
            Err(_) => 0,
        }
    }
}
