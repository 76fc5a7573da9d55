//! What a program needs before it reads its inputs.
ghost use Rattle.std.specs.Prelude.{◌≡◌, ◌++◌, IfErr, MatchResult, None, Some, map, codes};
ghost use Rattle.std.specs.Result.{result_map_both};
ghost use Rattle.std.specs.Str.{chars};
ghost use Rattle.tinyjson.specs.Error.{error_message};
ghost use Rattle.tinyjson_cli.specs.Arguments.{first_operand, given_of};
ghost use Rattle.tinyjson_cli.specs.Failures.{failure_status};
ghost use Rattle.tinyjson_cli.specs.Naming.{IsMisuse, IsNoText};
ghost use Rattle.tinyjson_cli.specs.declared.failure.Failure.{Failure};
ghost use Rattle.tinyjson_cli.specs.declared.status.Status.{Status};

use crate::arguments::{Arguments, Misuse};
use crate::failure::Failure;
use crate::program::{Program, misused, report};
use crate::status::Status;
use std::alloc::Global;
use tinyjson::JsonParseError;

/// The first operand, which a program needs, and the others. If there is none, a message says that this one is missing.
///
/// ```
/// let (pointer, files) = needed_operand(rt, PROGRAM, &arguments, "POINTER")?;
/// ```
pub fn needed_operand<'w, 'a>(
    rt: &HostRuntime,
    program: Program<'_>,
    arguments: &'a Arguments<'w>,
    name: &str,
) -> Result<(&'w str, &'a [&'w str]), Status>
    ensures { MatchResult result
        (λ r. first_operand (given_of arguments.now).operands
        ≡ Some (r.0.now, map (λ s. s.now) r.1.now))
        (λ s. (s ≡ Status.Misused) × (first_operand (given_of arguments.now).operands ≡ None)) }
{
    match arguments.first() {
        Some(operands) => Ok(operands),
        None => Err(misused(rt, program, Misuse::Missing(name))),
    }
}

/// The value; or the status of the failure, whose message is printed.
pub fn or_report<T>(
    rt: &HostRuntime,
    program: Program<'_>,
    done: Result<T, Failure>,
) -> Result<T, Status>
    ensures { result ≡ result_map_both (λ t. t) failure_status done }
{
    match done {
        Ok(value) => Ok(value),
        Err(failure) => Err(report(rt, program, None, &failure)),
    }
}

/// The failure for the text of `what`, a file that the arguments name, that is no JSON text.
///
/// ```
/// named_text_failure(alloc, "the patch", error) // the patch: Parse error at line:1, col:1: ..
/// ```
pub fn named_text_failure(alloc: Global, what: &str, error: JsonParseError) -> Failure
    ensures { IsNoText what.now error result }
{
    if error.is_out_of_memory() {
        return Failure::OutOfMemory;
    }
    match format!(in alloc; "{what}: {error}") {
        Ok(words) => Failure::Misused(words),
        Err(_) => Failure::OutOfMemory,
    }
}
