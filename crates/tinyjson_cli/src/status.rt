//! How a program ends.
ghost use Rattle.std.specs.Prelude.{◌≡◌, max};
ghost use Rattle.tinyjson_cli.specs.Failures.{status_code};

/// How a program ends, by the exit status that all programs share.
#[derive(Clone, Copy, Debug, PartialEq, Eq)]
pub enum Status {
    /// 0: done.
    Done,
    /// 1: the answer is no.
    No,
    /// 2: the arguments are not understood, or a file that they name as schema, patch or query.
    Misused,
    /// 3: an input is no JSON text, or not UTF-8.
    Refused,
    /// 4: memory ran out, or a read or a write failed.
    Failed,
}

impl Status {
    /// The exit status.
    pub fn code(self) -> u8
        ensures { result ≡ status_code self }
    {
        match self {
            Status::Done => 0,
            Status::No => 1,
            Status::Misused => 2,
            Status::Refused => 3,
            Status::Failed => 4,
        }
    }

    /// How a program ends that answers two inputs: with the greater status.
    pub fn and(self, other: Status) -> Status
        ensures { status_code result ≡ max (status_code self) (status_code other) }
    {
        if self.code() < other.code() {
            return other;
        }
        self
    }
}
