use crossbeam_utils::Backoff;
use std::thread;
use std::time::{Clock, Duration};

/// How long a thread sleeps at a time once spinning and yielding the processor didn't help, in microseconds.
const NAP: u64 = 100;

/// Waits a little for workers on other threads: first it spins, then it yields the processor, then it sleeps.
pub fn rest<R: Clock>(rt: &R, backoff: &Backoff) {
    if backoff.is_completed() {
        thread::sleep(rt, Duration::from_micros(NAP));
    } else {
        backoff.snooze();
    }
}
