//! A reader or a writer that remembers whether it failed.
ghost use Rattle.std.specs.Prelude.{◌≡◌, ◌||◌, false, is_err};
ghost use Rattle.std.specs.Io.KnownBytes.{ReadConsumes, WriteAppends};
ghost use Rattle.std.specs.Io.{ReadsAtMost, WritesAtMost};
ghost use Rattle.intern_run.specs.Writing.{fails_writing};

use std::io;
use std::io::{Read, Write};

/// Holds a reader or a writer, and whether a read or a write of it has failed.
#[derive(Drop)]
pub struct Watched<D> {
    device: D,
    failed: bool,
}

impl<D> Watched<D> {
    ghost use Rattle.intern_run.specs.Watching.{device_of, has_failed};

    /// A device of which no call has failed yet.
    pub fn new(device: D) -> Watched<D>
        ensures device { device_of result ≡ device }
        ensures failed { has_failed result ≡ false }
    {
        Watched {
            device,
            failed: false,
        }
    }

    /// The device.
    pub fn into_inner(self) -> D
        ensures { result ≡ device_of self }
    {
        let Watched { device, failed: _ } = self;
        device
    }

    /// Whether a call has failed.
    pub fn failed(&self) -> bool
        ensures { result ≡ has_failed self.now }
    {
        self.failed
    }
}

impl<D: Read> Watched<D> {
    ghost use Rattle.intern_run.specs.Watching.{device_of, has_failed};

    /// Reads once, and answers what the reader does. Any error is a failure, also an interruption.
    pub fn read(&mut self, buf: &mut [u8]) -> io::Result<usize>
        ensures bound { ReadsAtMost result buf.new }
        ensures bytes { ReadConsumes (D.remaining (device_of self.old))
            (D.remaining (device_of self.new)) result buf.new }
        ensures failed { has_failed self.new ≡ (has_failed self.old || is_err result) }
    {
        let answer = self.device.read(buf);
        self.failed = self.failed || answer.is_err();
        answer
    }
}

impl<D: Write> Watched<D> {
    ghost use Rattle.intern_run.specs.Watching.{device_of, has_failed};

    /// Writes once, and answers what the writer does. Any error is a failure, and so is a write
    /// that was offered a byte and took none.
    pub fn write(&mut self, buf: &[u8]) -> io::Result<usize>
        ensures bound { WritesAtMost result buf.now }
        ensures bytes { WriteAppends (D.contents (device_of self.old))
            (D.contents (device_of self.new)) result buf.now }
        ensures failed { has_failed self.new
            ≡ (has_failed self.old || fails_writing result buf.now) }
    {
        let answer = self.device.write(buf);
        let failed = match &answer {
            Ok(taken) => *taken == 0 && !buf.is_empty(),
            Err(_) => true,
        };
        self.failed = self.failed || failed;
        answer
    }
}
