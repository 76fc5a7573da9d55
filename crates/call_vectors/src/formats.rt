//! Formats of texts, by their names and by their functions.

use crate::inputs::Inputs;
use crate::reply::Reply;
use std::io;
use text_ecma_regexp::is_regex;
use text_formats::{
    Format, is_date, is_date_time, is_duration, is_email, is_hostname, is_ipv4, is_ipv6,
    is_json_pointer, is_relative_json_pointer, is_time, is_uri, is_uri_reference, is_uri_template,
    is_uuid,
};

/// The inputs are the name of a format, and a text.
pub fn answer(reply: &mut Reply, name: &str, inputs: &Inputs) -> io::Result<bool> {
    if name != "Format" {
        return Ok(false);
    }
    match Format::from_name(inputs.text(0)) {
        Some(format) => judged(reply, format, inputs.text(1))?,
        None => reply.word("none")?,
    }
    Ok(true)
}

/// The name of the format, and whether it accepts the text, by its own function too.
fn judged(reply: &mut Reply, format: Format, text: &str) -> io::Result<()> {
    reply.word(format.name())?;
    reply.shown(format.accepts(text))?;
    reply.shown(has_form(format, text))
}

fn has_form(format: Format, text: &str) -> bool {
    match format {
        Format::DateTime => is_date_time(text),
        Format::Date => is_date(text),
        Format::Time => is_time(text),
        Format::Duration => is_duration(text),
        Format::Email => is_email(text),
        Format::Hostname => is_hostname(text),
        Format::Ipv4 => is_ipv4(text),
        Format::Ipv6 => is_ipv6(text),
        Format::Uri => is_uri(text),
        Format::UriReference => is_uri_reference(text),
        Format::UriTemplate => is_uri_template(text),
        Format::Uuid => is_uuid(text),
        Format::JsonPointer => is_json_pointer(text),
        Format::RelativeJsonPointer => is_relative_json_pointer(text),
        Format::Regex => is_regex(text),
    }
}
