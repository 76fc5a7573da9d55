//! Prints the port of a server's settings: a proved caller of `tinyjson_document`.
#![tactic(auto)]

ghost use Rattle.std.specs.IoError.{error_kind};
ghost use Rattle.std.specs.Prelude.{◌≡◌, ◌≢◌, Some, codes, option_map, IfOk, IfErr};
ghost use Rattle.tinyjson.specs.Words.{Tree, IsText, IsAccepted, chars, compact, text};
ghost use Rattle.example_document.specs.Settings.{port_in};

use std::alloc::Global;
use std::io::{self, ErrorKind};
use tinyjson_document::Document;

/// The compact text of the member `port` of the member `server`, if there is one. At most 100 containers may
/// be nested in the settings.
fn port(alloc: Global, settings: &str) -> io::Result<Option<String>>
    ensures ok { IfOk result (λ port. (t : Tree) × IsText (Some 100) (chars settings.now) t
        × (option_map text port ≡ option_map compact (port_in t))) }
    ensures err { IfErr result (λ e. error_kind e ≢ ErrorKind.OutOfMemory →
        ¬ IsAccepted (Some 100) (chars settings.now)) }
{
    let document = Document::read_with_depth_limit(alloc, settings, 100)?;
    let Some(server) = document.root().member("server") else {
        return Ok(None);
    };
    match server.member("port") {
        Some(port) => Ok(Some(port.to_string(alloc)?)),
        None => Ok(None),
    }
}

fn main(rt: HostRuntime) -> io::Result<()> {
    let settings = r#"{"name": "n", "server": {"host": "localhost", "port": 8080.0}}"#;
    match port(rt.alloc(), settings)? {
        Some(port) => println!(rt; "{port}"),
        None => println!(rt; "none"),
    }
}
