//! The settings of a JSON text.
ghost use Rattle.std.specs.Prelude.{option_map, Some, IfOk, IsOk};
ghost use Rattle.std.specs.Str.{chars};
ghost use Rattle.tinyjson.specs.View.{view, text};
ghost use Rattle.example_settings.specs.Settings.{
  AnswersText,
  AnswersTree,
  IsPort,
  IsHost,
  IsTls,
  GivesOnly,
  SetsPort,
  KeepsSettings,
  settings_error_message,
};

use std::alloc::{AllocError, Global};
use std::collections::HashMap;
use std::error::Error;
use std::fmt;
use tinyjson::{JsonNumber, JsonParseError, JsonValue};

/// Where to listen, and how.
#[derive(Debug, PartialEq, Eq, Drop)]
pub struct Settings {
    /// From 1 to 65535.
    pub port: u16,
    pub host: String,
    /// `false` if the text has no `tls`.
    pub tls: bool,
}

/// The key of a setting.
#[derive(Clone, Copy, Debug, PartialEq, Eq)]
pub enum Key {
    /// `port`: a whole number from 1 to 65535.
    Port,
    /// `host`: a string.
    Host,
    /// `tls`: `true`, `false`, or absent.
    Tls,
}

/// Why a text has no settings.
#[derive(Debug, PartialEq, Eq, Drop)]
pub enum SettingsError {
    /// It is no JSON text, or memory ran out.
    Text(JsonParseError),
    /// Its value is no object.
    NotAnObject,
    /// The object has no value at this key, or one of the wrong kind. Of several such keys it is the first of
    /// `port`, `tls` and `host`.
    Lacks(Key),
}

/// Reads the settings from a text, which has to be an object. Members other than the three are ignored.
///
/// ```
/// let settings = settings::read(alloc, r#"{"port": 8.08e3, "host": "localhost"}"#)?;
/// ```
pub fn read(alloc: Global, text: &str) -> Result<Settings, SettingsError>
    ensures { AnswersText (chars text.now) result }
{
    match JsonValue::from_str(alloc, text) {
        Ok(value) => from_value(value),
        Err(error) => Err(SettingsError::Text(error)),
    }
}

fn from_value(value: JsonValue) -> Result<Settings, SettingsError>
    ensures { AnswersTree (view value) result }
{
    let mut members = match HashMap::<String, JsonValue>::try_from(value) {
        Ok(members) => members,
        Err(error) => {
            JsonValue::from(error).dismantle();
            return Err(SettingsError::NotAnObject);
        }
    };
    let port = port(members.get("port"));
    let tls = tls(members.get("tls"));
    let host = host(members.remove("host"));
    JsonValue::Object(members).dismantle();
    let Some(port) = port else {
        return Err(SettingsError::Lacks(Key::Port));
    };
    let Some(tls) = tls else {
        return Err(SettingsError::Lacks(Key::Tls));
    };
    let Some(host) = host else {
        return Err(SettingsError::Lacks(Key::Host));
    };
    Ok(Settings { port, host, tls })
}

fn port(member: Option<&JsonValue>) -> Option<u16>
    ensures { GivesOnly (IsPort (option_map (λ x. view x.now) member.entry)) (λ n. n) result }
{
    let value = member?;
    match value.get::<JsonNumber>()?.to_u64() {
        Some(n) if n > 0 && n < 65_536 => Some(n as u16),
        _ => None,
    }
}

fn tls(member: Option<&JsonValue>) -> Option<bool>
    ensures { GivesOnly (IsTls (option_map (λ x. view x.now) member.entry)) (λ b. b) result }
{
    match member {
        None => Some(false),
        Some(JsonValue::Boolean(b)) => Some(*b),
        Some(_) => None,
    }
}

fn host(member: Option<JsonValue>) -> Option<String>
    ensures { GivesOnly (IsHost (option_map view member)) text result }
{
    match member? {
        JsonValue::String(text) => Some(text),
        other => {
            other.dismantle();
            None
        }
    }
}

/// Replaces the member `port` of an object, and returns the old one.
///
/// It returns `None` if the value is no object or has no such member, and the value is then unchanged. If the
/// value has settings, it still has them, except for the port; 0 is no port. It never returns `Err`: a port's
/// number takes no memory.
///
/// ```
/// let old = settings::set_port(alloc, &mut value, 8443)?;
/// ```
pub fn set_port(
    alloc: Global,
    value: &mut JsonValue,
    port: u16,
) -> Result<Option<JsonValue>, AllocError>
    ensures change { SetsPort value.old port result value.new }
    ensures settings { IfOk result (λ o. KeepsSettings (view value.old) port (view value.new)) }
    ensures ok { IsOk result }
{
    let Some(members) = value.get::<HashMap<String, JsonValue>>() else {
        return Ok(None);
    };
    if !members.contains_key("port") {
        return Ok(None);
    }
    let number = JsonNumber::from_u64(alloc, u64::from(port))?;
    Ok(Some(value.replace_member("port", JsonValue::from(number))))
}

/// The message that the program writes after its name.
impl fmt::Display for SettingsError {
    ghost output = { λ e. Some (settings_error_message e) };

    fn fmt<W: fmt::Write>(&self, f: &mut fmt::Formatter<W>) -> fmt::Result {
        match self {
            SettingsError::Text(error) => write!(f, "{error}"),
            SettingsError::NotAnObject => f.write_str("not an object"),
            SettingsError::Lacks(Key::Port) => f.write_str("no port from 1 to 65535"),
            SettingsError::Lacks(Key::Host) => f.write_str("no host"),
            SettingsError::Lacks(Key::Tls) => f.write_str("tls is neither true nor false"),
        }
    }
}

impl Error for SettingsError {}
