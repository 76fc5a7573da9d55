//! References that are followed once, when a schema is read.
ghost use Rattle.std.specs.Prelude.{◌≡◌, option_map, IfOk, OnOk, true};
ghost use Rattle.tinyjson.specs.View.{view};
ghost use Rattle.tinyjson_schema.specs.Leads.{are_led, led};

use crate::lead::Lead;
use std::alloc::{AllocError, Global};
use tinyjson::JsonValue;
use tinyjson_bytes::are_equal;
use tinyjson_schema_keywords::{Keyword, SchemaMember, Walk, Whole, schema_members, target};
use tinyjson_schema_table::Table;

/// How many references are kept. They are compared one by one.
const KEPT: usize = 64;

/// The first different references of the whole schema, up to 64 of them. The only error is out of memory.
pub fn leads_of<'s>(whole: &Whole<'s>, alloc: Global) -> Result<Vec<Lead<'s>>, AllocError>
    ensures { IfOk result (λ leads. are_led (view whole.now.root.now) leads.items ≡ true) }
{
    let members = schema_members(whole.root, alloc)?;
    let walk = Walk {
        whole,
        steps: 0,
        alloc,
    };
    let mut leads = Vec::new(alloc);
    for member in members.as_slice() {
        add_lead(*member, walk, &mut leads)?;
    }
    Ok(leads)
}

/// Appends the member, if it is a `$ref` that leads to a schema, one with this text is not there, and not too many are.
fn add_lead<'s>(
    member: SchemaMember<'s>,
    walk: Walk<'_, 's>,
    leads: &mut Vec<Lead<'s>>,
) -> Result<(), AllocError>
    ensures { OnOk result (are_led (view walk.entry.whole.now.root.now) leads.old.items ≡ true
        → are_led (view walk.entry.whole.now.root.now) leads.new.items ≡ true) }
{
    if leads.len() == KEPT {
        return Ok(());
    }
    let Some(Keyword::Ref) = member.keyword else {
        return Ok(());
    };
    let JsonValue::String(reference) = member.value else {
        return Ok(());
    };
    if led(leads.as_slice(), reference.as_str()).is_some() {
        return Ok(());
    }
    let Some(schema) = target(member.value, walk)? else {
        return Ok(());
    };
    let table = Table::of(schema, walk.alloc)?;
    let lead = Lead {
        reference,
        schema,
        table,
    };
    leads.push(lead)?;
    Ok(())
}

/// The first of the references with this text.
pub fn led<'d, 's>(leads: &'d [Lead<'s>], reference: &str) -> Option<&'d Lead<'s>>
    ensures { option_map (λ x. view x.now.schema.now) result ≡ led leads.now reference.now }
{
    for lead in leads {
        if are_equal(lead.reference.as_bytes(), reference.as_bytes()) {
            return Some(lead);
        }
    }
    None
}
