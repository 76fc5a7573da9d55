//! Runs over a reader and a writer of one byte a call, which fail at a chosen call, and arguments.
ghost use Rattle.std.specs.Prelude.{◌≤◌, IfOk};

use crate::options;
use crate::run::{Options, run, run_limited};
use std::alloc::{AllocError, Global};
use std::io::{self, ErrorKind, Read, Write};
use std::string::ToString;
use std::test::Fail;

/// What is written for this text, which is its own compact text: 27 bytes.
const LINE: &[u8] = b"[1,{\"a\":[null,\"x\"],\"b\":2}]\n";

/// Counts calls. One of them fails, by an error, or, where there is none, by taking nothing.
#[derive(Clone, Copy)]
struct Calls {
    count: usize,
    failing: usize,
    error: Option<ErrorKind>,
}

impl Calls {
    /// Calls of which this one fails, the first being 1, or none if it is 0.
    fn new(failing: usize, error: Option<ErrorKind>) -> Calls {
        let count = 0;
        Calls {
            count,
            failing,
            error,
        }
    }

    /// How many of `len` bytes the next call takes.
    fn take(&mut self, len: usize) -> io::Result<usize>
        ensures { IfOk result (λ n. n ≤ len) }
    {
        self.count = self.count.saturating_add(1);
        if self.count != self.failing {
            return Ok(len.min(1));
        }
        match self.error {
            Some(kind) => Err(io::Error::from(kind)),
            None => Ok(0),
        }
    }
}

#[derive(Drop)]
struct ByteReader<'a> {
    bytes: &'a [u8],
    calls: Calls,
}

impl Read for ByteReader<'_> {
    fn read(&mut self, buf: &mut [u8]) -> io::Result<usize> {
        let len = self.calls.take(buf.len())?;
        self.bytes.read(&mut buf[..len])
    }
}

/// Its flush fails, since a run flushes nothing.
#[derive(Drop)]
struct ByteWriter {
    bytes: Vec<u8>,
    calls: Calls,
}

impl Write for ByteWriter {
    fn write(&mut self, buf: &[u8]) -> io::Result<usize> {
        let len = self.calls.take(buf.len())?;
        self.bytes.extend_from_slice(&buf[..len])?;
        Ok(len)
    }

    fn flush(&mut self) -> io::Result<()> {
        Err(io::Error::from(ErrorKind::Other))
    }
}

/// Runs over them, and returns the message and the status: none and 0 after success.
fn answer(
    alloc: Global,
    input: &mut ByteReader<'_>,
    output: &mut ByteWriter,
    options: Options,
) -> Result<(String, u8), AllocError> {
    let Options { indented, limit } = options;
    let answer = match limit {
        None => run(alloc, input, output, indented),
        Some(limit) => run_limited(alloc, input, output, indented, limit),
    };
    match answer {
        Ok(()) => Ok((String::new(alloc), 0)),
        Err(error) => Ok((error.to_string(alloc)?, error.status())),
    }
}

const PLAIN: Options = Options {
    indented: false,
    limit: None,
};

#[test]
fn a_failed_call_ends_the_run(rt: HostRuntime) -> Result<(), Fail> {
    let alloc = rt.alloc();
    for (is_read, error, message) in [
        (true, Some(ErrorKind::Other), "reading failed"),
        (true, Some(ErrorKind::Interrupted), "reading failed"),
        (false, Some(ErrorKind::Other), "writing failed"),
        (false, Some(ErrorKind::Interrupted), "writing failed"),
        (false, Some(ErrorKind::OutOfMemory), "out of memory"),
        (false, None, "writing failed"),
    ] {
        for call in 1..=LINE.len() {
            let (read, write) = if is_read { (call, 0) } else { (0, call) };
            let bytes = &LINE[..LINE.len() - 1];
            let mut input = ByteReader {
                bytes,
                calls: Calls::new(read, error),
            };
            let mut output = ByteWriter {
                bytes: Vec::new(alloc),
                calls: Calls::new(write, error),
            };
            let (words, status) = answer(alloc, &mut input, &mut output, PLAIN)?;
            assert_eq!(rt; (words.as_str(), status), (message, 4), "call {call}");
            let (reads, writes) = if is_read {
                (call, 0)
            } else {
                (LINE.len(), call)
            };
            assert_eq!(rt; (input.calls.count, output.calls.count), (reads, writes));
            assert!(rt;
                LINE.get(..writes.saturating_sub(1)) == Some(output.bytes.as_slice()),
                "call {call}"
            );
        }
    }
    Ok(())
}

/// The input, whether the text is indented, the limit, what is written, and the message and the status.
const RUNS: [(&[u8], bool, Option<usize>, &str, &str, u8); 8] = [
    (b"  true\n", false, None, "true\n", "", 0),
    (b"\"\xe2\x9d\xa4\"", false, None, "\"\u{2764}\"\n", "", 0),
    (
        br#"{"b":[1],"a":null}"#,
        true,
        None,
        "{\n  \"a\": null,\n  \"b\": [\n    1\n  ]\n}\n",
        "",
        0,
    ),
    (b"[1]", false, Some(1), "[1]\n", "", 0),
    (
        b"[1,]",
        false,
        None,
        "",
        "Parse error at line:1, col:3: Invalid character: ]",
        1,
    ),
    (
        b"[[1]]",
        false,
        Some(1),
        "",
        "Parse error at line:1, col:1: Nesting is too deep at '['",
        1,
    ),
    (b"\xff", false, None, "", "input is not UTF-8", 3),
    (b"\xe2\x9d", true, Some(0), "", "input is not UTF-8", 3),
];

#[test]
fn one_byte_a_call_is_enough(rt: HostRuntime) -> Result<(), Fail> {
    let alloc = rt.alloc();
    for (bytes, indented, limit, text, message, status) in RUNS {
        let mut input = ByteReader {
            bytes,
            calls: Calls::new(0, None),
        };
        let mut output = ByteWriter {
            bytes: Vec::new(alloc),
            calls: Calls::new(0, None),
        };
        let ended = answer(alloc, &mut input, &mut output, Options { indented, limit })?;
        assert_eq!(rt; (ended.0.as_str(), ended.1), (message, status));
        assert_eq!(rt; output.bytes.as_slice(), text.as_bytes());
        assert_eq!(rt; output.calls.count, text.len());
    }
    Ok(())
}

/// The options that the words of a line ask for.
fn asked(alloc: Global, line: &str) -> Result<Option<(bool, Option<usize>)>, AllocError> {
    let mut words = Vec::new(alloc);
    for word in line.split_whitespace() {
        words.push(String::from_str(alloc, word)?)?;
    }
    Ok(options(words.as_slice()).map(|o| (o.indented, o.limit)))
}

#[test]
fn arguments_are_read(rt: HostRuntime) -> Result<(), Fail> {
    for (line, expected) in [
        ("", Some((false, None))),
        ("-i", Some((true, None))),
        ("-d 3 -i", Some((true, Some(3)))),
        ("-i -d 007", Some((true, Some(7)))),
        ("-d 0", Some((false, Some(0)))),
        ("-x", None),
        ("-d", None),
        ("-d 1234567890", None),
        ("-d -1", None),
        ("-i -i", None),
        ("-d 1 -d 2", None),
    ] {
        assert!(rt; asked(rt.alloc(), line)? == expected, "{line}");
    }
    Ok(())
}
