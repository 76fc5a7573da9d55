//! Replaces an item of a list of settings.
ghost use Rattle.tinyjson.specs.View.{view};
ghost use Rattle.example_settings.specs.Servers.{ReplacesServer, KeepsOthers};

use tinyjson::JsonValue;

/// Replaces the settings of the server at the index of an array, and returns the old ones.
///
/// `Err` returns `server` if the value is no array or has no such item. The value is then unchanged.
///
/// ```
/// let old = servers::replace_server(&mut servers, 0, server);
/// ```
pub fn replace_server(
    servers: &mut JsonValue,
    index: usize,
    server: JsonValue,
) -> Result<JsonValue, JsonValue>
    ensures change { ReplacesServer (view servers.old) index server result (view servers.new) }
    ensures others { KeepsOthers (view servers.old) index (view servers.new) }
{
    let Some(items) = servers.get::<Vec<JsonValue>>() else {
        return Err(server);
    };
    if index >= items.len() {
        return Err(server);
    }
    Ok(servers.replace_item(index, server))
}
