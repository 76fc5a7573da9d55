//! An output that is complete before the program waits for input.

use std::cell::RefCell;
use std::io::{self, ErrorKind, Read, Write};

/// A reader that flushes an output before each read, so that it does not wait with lines in hand, and that reads no
/// further after the end.
#[derive(Drop)]
pub(crate) struct Paced<'a, R, W> {
    inner: R,
    output: &'a RefCell<W>,
    is_ended: bool,
}

impl<'a, R: Read, W: Write> Paced<'a, R, W> {
    pub(crate) fn new(inner: R, output: &'a RefCell<W>) -> Paced<'a, R, W> {
        Paced {
            inner,
            output,
            is_ended: false,
        }
    }
}

impl<R: Read, W: Write> Read for Paced<'_, R, W> {
    fn read(&mut self, buf: &mut [u8]) -> io::Result<usize> {
        if self.is_ended {
            return Ok(0);
        }
        flush(self.output)?;
        let len = self.inner.read(buf)?;
        self.is_ended = len == 0;
        Ok(len)
    }
}

/// The writer of an output that a `Paced` flushes.
#[derive(Drop)]
pub(crate) struct Shared<'a, W> {
    output: &'a RefCell<W>,
}

impl<'a, W: Write> Shared<'a, W> {
    pub(crate) fn new(output: &'a RefCell<W>) -> Shared<'a, W> {
        Shared { output }
    }
}

impl<W: Write> Write for Shared<'_, W> {
    fn write(&mut self, buf: &[u8]) -> io::Result<usize> {
        match self.output.try_borrow_mut() {
            Ok(mut output) => output.write(buf),
            Err(_) => Err(io::Error::from(ErrorKind::Other)),
        }
    }

    fn flush(&mut self) -> io::Result<()> {
        flush(self.output)
    }
}

/// Flushes a shared output.
fn flush<W: Write>(output: &RefCell<W>) -> io::Result<()> {
    match output.try_borrow_mut() {
        Ok(mut output) => output.flush(),
        Err(_) => Err(io::Error::from(ErrorKind::Other)),
    }
}
