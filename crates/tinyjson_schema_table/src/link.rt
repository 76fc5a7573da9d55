//! Links from a schema to its subschemas.
ghost use Rattle.std.specs.Prelude.{◌≡◌, true, IfSome};
ghost use Rattle.std.specs.Str.{chars};
ghost use Rattle.tinyjson.specs.Index.{nth};
ghost use Rattle.tinyjson.specs.Tree.{Tree};
ghost use Rattle.tinyjson_schema_keywords.specs.Applied.{schema_at, schemas_at};
ghost use Rattle.tinyjson_schema_table.specs.Links.{keyed, led_by, IsPlaceOf};

use crate::values::place_of;
use std::cmp::Ordering;
use tinyjson_bytes::are_equal;
use tinyjson_schema_keywords::Keyword;

/// How a schema leads to a subschema.
#[derive(Clone, Copy)]
pub enum Way<'s> {
    /// By the keyword, whose value it is.
    Single(Keyword),
    /// By the keyword's list, at this index.
    Listed(Keyword, usize),
    /// By the keyword's object, at this key.
    Keyed(Keyword, &'s str),
}

/// A way, and the place in the table to which it leads.
#[derive(Clone, Copy)]
pub struct Link<'s> {
    pub way: Way<'s>,
    pub at: usize,
}

/// The place to which the link for the way leads. The link at the place `near` is tried first. The links have to be in
/// their order, or this one may not be found.
#[inline(always)]
pub fn found(links: &[Link<'_>], way: Way<'_>, near: usize) -> Option<usize>
    ensures { IfSome result (IsPlaceOf links.now way.entry) }
{
    if let Some(at) = found_at(links, way, near) {
        return Some(at);
    }
    searched(links, way)
}

/// `found` by bisection.
#[inline(never)]
fn searched(links: &[Link<'_>], way: Way<'_>) -> Option<usize>
    ensures { IfSome result (IsPlaceOf links.now way.entry) }
{
    let searched = links.binary_search_by(|link| order(link.way, way));
    match searched {
        Ok(index) => found_at(links, way, index),
        Err(_) => None,
    }
}

/// The place to which the link at the index leads, if it is the one for the way.
#[inline(always)]
fn found_at(links: &[Link<'_>], way: Way<'_>, index: usize) -> Option<usize>
    ensures { IfSome result (IsPlaceOf links.now way.entry) }
{
    let Some(link) = links.get(index) else {
        return None;
    };
    if is_same(link.way, way) {
        return Some(link.at);
    }
    None
}

/// Whether both ways lead to the same subschema.
#[inline(always)]
fn is_same(own: Way<'_>, way: Way<'_>) -> bool
    ensures { result ≡ true → (s : Tree) → led_by s own.entry ≡ led_by s way.entry }
{
    match own {
        Way::Single(keyword) => is_single(keyword, way),
        Way::Listed(keyword, index) => is_listed(keyword, index, way),
        Way::Keyed(keyword, key) => is_keyed(keyword, key, way),
    }
}

#[inline(always)]
fn is_single(keyword: Keyword, way: Way<'_>) -> bool
    ensures { result ≡ true → (s : Tree) → schema_at s keyword ≡ led_by s way.entry }
{
    match way {
        Way::Single(other) => is_keyword(keyword, other),
        _ => false,
    }
}

#[inline(always)]
fn is_listed(keyword: Keyword, index: usize, way: Way<'_>) -> bool
    ensures { result ≡ true → (s : Tree)
        → nth (schemas_at s keyword) index ≡ led_by s way.entry }
{
    let Way::Listed(other, at) = way else {
        return false;
    };
    if at != index {
        return false;
    }
    is_keyword(keyword, other)
}

#[inline(always)]
fn is_keyed(keyword: Keyword, key: &str, way: Way<'_>) -> bool
    ensures { result ≡ true → (s : Tree) → keyed s keyword (chars key.now) ≡ led_by s way.entry }
{
    let Way::Keyed(other, name) = way else {
        return false;
    };
    if !is_keyword(keyword, other) {
        return false;
    }
    are_equal(key.as_bytes(), name.as_bytes())
}

/// Whether it is the same keyword, one whose value is held.
#[inline(always)]
fn is_keyword(keyword: Keyword, other: Keyword) -> bool
    ensures { result ≡ true → keyword ≡ other }
{
    let Some(place) = place_of(keyword) else {
        return false;
    };
    let Some(at) = place_of(other) else {
        return false;
    };
    at == place
}

/// The order of a schema's links: by the places of their keywords, and then by index or key.
fn order(way: Way<'_>, other: Way<'_>) -> Ordering {
    match rank(way).cmp(&rank(other)) {
        Ordering::Equal => order_within(way, other),
        apart => apart,
    }
}

fn order_within(way: Way<'_>, other: Way<'_>) -> Ordering {
    match (way, other) {
        (Way::Listed(_, index), Way::Listed(_, at)) => index.cmp(&at),
        (Way::Keyed(_, key), Way::Keyed(_, name)) => key.cmp(name),
        _ => Ordering::Equal,
    }
}

/// The place of the way's keyword.
fn rank(way: Way<'_>) -> usize {
    let keyword = match way {
        Way::Single(keyword) => keyword,
        Way::Listed(keyword, _) => keyword,
        Way::Keyed(keyword, _) => keyword,
    };
    place_of(keyword).unwrap_or(0)
}
