//! The formats by their names.
ghost use Rattle.std.specs.Prelude.{◌≡◌};
ghost use Rattle.text_formats.specs.Format.{name, accepts, format_named};

use crate::date::{is_date, is_date_time, is_time};
use crate::duration::is_duration;
use crate::email::is_email;
use crate::form::is_uuid;
use crate::host::is_hostname;
use crate::ip::{is_ipv4, is_ipv6};
use crate::pointer::{is_json_pointer, is_relative_json_pointer};
use crate::template::is_uri_template;
use crate::uri::{is_uri, is_uri_reference};
use text_ecma_regexp::is_regex;

/// A format that this library checks.
///
/// ```
/// assert!(rt; Format::Date.accepts("2024-02-29"));
/// ```
#[derive(Clone, Copy)]
pub enum Format {
    /// A date and a time (RFC 3339).
    DateTime,
    /// A date (RFC 3339).
    Date,
    /// A time with its offset (RFC 3339).
    Time,
    /// A duration (RFC 3339, appendix A).
    Duration,
    /// An address of mail (RFC 5321).
    Email,
    /// A name of a host (RFC 1123).
    Hostname,
    /// An address of IPv4 (RFC 3986).
    Ipv4,
    /// An address of IPv6 (RFC 4291).
    Ipv6,
    /// A URI (RFC 3986).
    Uri,
    /// A URI or a relative reference (RFC 3986).
    UriReference,
    /// A URI template (RFC 6570).
    UriTemplate,
    /// A UUID (RFC 4122).
    Uuid,
    /// A JSON Pointer (RFC 6901).
    JsonPointer,
    /// A relative JSON Pointer (draft-bhutton-relative-json-pointer-00).
    RelativeJsonPointer,
    /// A regular expression (ECMA-262, 15th edition).
    Regex,
}

impl Format {
    /// The format of the name, as JSON Schema Validation 2020-12, section 7.3, has it; `None` for others.
    ///
    /// ```
    /// assert!(rt; matches!(Format::from_name("date-time"), Some(Format::DateTime)));
    /// assert!(rt; Format::from_name("Date").is_none());
    /// ```
    pub fn from_name(text: &str) -> Option<Format>
        ensures { result ≡ format_named text.now }
    {
        match text {
            "date-time" => Some(Format::DateTime),
            "date" => Some(Format::Date),
            "time" => Some(Format::Time),
            "duration" => Some(Format::Duration),
            "email" => Some(Format::Email),
            "hostname" => Some(Format::Hostname),
            "ipv4" => Some(Format::Ipv4),
            "ipv6" => Some(Format::Ipv6),
            "uri" => Some(Format::Uri),
            "uri-reference" => Some(Format::UriReference),
            "uri-template" => Some(Format::UriTemplate),
            "uuid" => Some(Format::Uuid),
            "json-pointer" => Some(Format::JsonPointer),
            "relative-json-pointer" => Some(Format::RelativeJsonPointer),
            "regex" => Some(Format::Regex),
            _ => None,
        }
    }

    /// The format's name.
    ///
    /// ```
    /// assert_eq!(rt; Format::Ipv6.name(), "ipv6");
    /// ```
    pub fn name(self) -> &'static str
        ensures { result.now ≡ name self }
    {
        match self {
            Format::DateTime => "date-time",
            Format::Date => "date",
            Format::Time => "time",
            Format::Duration => "duration",
            Format::Email => "email",
            Format::Hostname => "hostname",
            Format::Ipv4 => "ipv4",
            Format::Ipv6 => "ipv6",
            Format::Uri => "uri",
            Format::UriReference => "uri-reference",
            Format::UriTemplate => "uri-template",
            Format::Uuid => "uuid",
            Format::JsonPointer => "json-pointer",
            Format::RelativeJsonPointer => "relative-json-pointer",
            Format::Regex => "regex",
        }
    }

    /// Whether the text has the format.
    ///
    /// ```
    /// assert!(rt; Format::Ipv6.accepts("::1"));
    /// ```
    pub fn accepts(self, text: &str) -> bool
        ensures { result ≡ accepts self text.now }
    {
        match self {
            Format::DateTime => is_date_time(text),
            Format::Date => is_date(text),
            Format::Time => is_time(text),
            Format::Duration => is_duration(text),
            Format::Email => is_email(text),
            Format::Hostname => is_hostname(text),
            Format::Ipv4 => is_ipv4(text),
            Format::Ipv6 => is_ipv6(text),
            Format::Uri => is_uri(text),
            Format::UriReference => is_uri_reference(text),
            Format::UriTemplate => is_uri_template(text),
            Format::Uuid => is_uuid(text),
            Format::JsonPointer => is_json_pointer(text),
            Format::RelativeJsonPointer => is_relative_json_pointer(text),
            Format::Regex => is_regex(text),
        }
    }
}
