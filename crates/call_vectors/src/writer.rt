//! A writer that takes few bytes a call, and fails at one.

use std::alloc::Global;
use std::io::{self, ErrorKind, Write};

/// The message of the errors of a [`Sink`].
pub const MESSAGE: &str = "the writer's own message";

/// A writer that keeps what it takes, at most `chunk` bytes a call. It fails at the call of one number, and then goes on.
#[derive(Drop)]
pub struct Sink {
    pub bytes: Vec<u8>,
    pub chunk: usize,
    pub failing_call: usize,
    pub failure: Failure,
    /// How often it was called, how often with no bytes, and how often it was flushed.
    pub calls: usize,
    pub empty_calls: usize,
    pub flushes: usize,
}

/// How a writer fails.
#[derive(Clone, Copy)]
pub enum Failure {
    /// It returns an error of this kind, with [`MESSAGE`].
    Error(ErrorKind),
    /// It takes nothing.
    TakesNothing,
}

impl Failure {
    pub fn named(name: &str) -> Failure {
        match name {
            "WriteZero" => Failure::TakesNothing,
            "Interrupted" => Failure::Error(ErrorKind::Interrupted),
            "OutOfMemory" => Failure::Error(ErrorKind::OutOfMemory),
            "BrokenPipe" => Failure::Error(ErrorKind::BrokenPipe),
            _ => Failure::Error(ErrorKind::Other),
        }
    }
}

impl Sink {
    pub fn new(alloc: Global, chunk: usize, failing_call: usize, failure: Failure) -> Sink {
        Sink {
            bytes: Vec::new(alloc),
            chunk,
            failing_call,
            failure,
            calls: 0,
            empty_calls: 0,
            flushes: 0,
        }
    }
}

impl Write for Sink {
    fn write(&mut self, buf: &[u8]) -> io::Result<usize> {
        self.calls = self.calls.saturating_add(1);
        if buf.is_empty() {
            self.empty_calls = self.empty_calls.saturating_add(1);
        }
        if self.calls == self.failing_call {
            return match self.failure {
                Failure::Error(kind) => Err(io::Error::new(kind, MESSAGE)),
                Failure::TakesNothing => Ok(0),
            };
        }
        let count = buf.len().min(self.chunk);
        self.bytes.extend_from_slice(&buf[..count])?;
        Ok(count)
    }

    fn flush(&mut self) -> io::Result<()> {
        self.flushes = self.flushes.saturating_add(1);
        Ok(())
    }
}
