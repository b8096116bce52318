//! The time that the system tells.

use std::rt::HostRuntime;
use std::time::Clock;

/// The milliseconds of the system's clock that never goes back, where it tells them.
pub fn milliseconds(rt: &HostRuntime) -> Option<u64> {
    let since = rt.monotonic().ok()?;
    Some(since.as_millis().min(u128::from(u64::MAX)) as u64)
}
