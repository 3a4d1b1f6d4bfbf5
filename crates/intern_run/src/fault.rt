//! Why a run gave up.
ghost use Rattle.std.specs.Prelude.{◌≡◌};
ghost use Rattle.intern_run.specs.Served.{exit_status};

/// Why a run gave up.
#[derive(Clone, Copy, PartialEq, Eq, Debug)]
pub enum Fault {
    /// A read failed. Nothing was written.
    Input,
    /// The input isn't UTF-8. Nothing was written.
    NotText,
    /// There was no memory for the input or the answers. Nothing was written.
    OutOfMemory,
    /// A write failed. A beginning of the answers was written.
    Output,
}

impl Fault {
    ghost use Rattle.intern_run.specs.FaultLine.{fault_line};

    /// The line on standard error, without its line feed.
    pub fn line(self) -> &'static str
        ensures { result.now ≡ fault_line self }
    {
        match self {
            Fault::Input => "intern_run: input failed",
            Fault::NotText => "intern_run: input is not UTF-8",
            Fault::OutOfMemory => "intern_run: out of memory",
            Fault::Output => "intern_run: output failed",
        }
    }
}

/// The exit status of a run: 0 without a fault, and 2 with one.
pub fn status(outcome: &Result<(), Fault>) -> u8
    ensures { result ≡ exit_status outcome.now }
{
    match outcome {
        Ok(()) => 0,
        Err(_) => 2,
    }
}
