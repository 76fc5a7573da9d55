//! The output of a program.
ghost use Rattle.std.specs.Prelude.{◌≡◌};
ghost use Rattle.tinyjson_cli.specs.Outputs.{watched_contents};

use std::io::{self, ErrorKind, Write};

/// A writer that keeps the error of a write that failed, for the message.
#[derive(Drop)]
pub(crate) struct Watched<W> {
    inner: W,
    error: Option<io::Error>,
}

impl<W: Write> Watched<W> {
    pub(crate) fn new(inner: W) -> Watched<W> {
        Watched { inner, error: None }
    }

    /// The error of the last write that failed, once.
    pub(crate) fn take_error(&mut self) -> Option<io::Error>
        ensures { self.new.inner ≡ self.old.inner }
    {
        self.error.take()
    }
}

impl<W: Write> Write for Watched<W> {
    ghost contents = { watched_contents W.contents };

    fn write(&mut self, buf: &[u8]) -> io::Result<usize> {
        match self.inner.write(buf) {
            Ok(len) => Ok(len),
            Err(error) => {
                let kind = error.kind();
                if kind != ErrorKind::Interrupted {
                    self.error = Some(error);
                }
                Err(io::Error::from(kind))
            }
        }
    }

    fn flush(&mut self) -> io::Result<()> {
        self.inner.flush()
    }
}
