//! The memory of the process.
use anyhow::{Context, Result};
use std::fs;
use std::rt::Files;

/// What says how much memory the process has, in bytes.
pub(crate) trait Memory {
    /// The memory now.
    fn now(&self) -> Result<u64>;

    /// The most at a time so far, since the start or since it was forgotten.
    fn peak(&self) -> Result<u64>;

    /// Forgets the most at a time so far.
    fn forget_peak(&self) -> Result<()>;
}

impl<R: Files + Alloc> Memory for R {
    fn now(&self) -> Result<u64> {
        read_status(self, "VmRSS:")
    }

    fn peak(&self) -> Result<u64> {
        read_status(self, "VmHWM:")
    }

    // 5 is the kernel's number for that.
    fn forget_peak(&self) -> Result<()> {
        fs::write(self, "/proc/self/clear_refs", "5")?;
        Ok(())
    }
}

fn read_status(rt: &(impl Files + Alloc), field: &str) -> Result<u64> {
    let status = fs::read_to_string(rt, "/proc/self/status")?;
    bytes_in(status.as_str(), field).context(format_args!(
        "the process's status has no field {field}"
    ))
}

// What a field of a status file says, in bytes: the file has units of 1,024 bytes.
fn bytes_in(status: &str, field: &str) -> Option<u64> {
    let (_, rest) = status.split_once(field)?;
    let kilobytes = rest.split_whitespace().next()?.parse::<u64>().ok()?;
    kilobytes.checked_mul(1024)
}
