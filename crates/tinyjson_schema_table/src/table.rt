//! A table of subschemas. From each of them links lead to others.
ghost use Rattle.std.specs.Prelude.{◌≡◌, true, IfOk, OnOk, IfSome, Some};
ghost use Rattle.tinyjson.specs.Tree.{Tree};
ghost use Rattle.tinyjson.specs.View.{view};
ghost use Rattle.tinyjson_schema_table.specs.Givens.{is_at};
ghost use Rattle.tinyjson_schema_table.specs.Links.{led_by, tree_in, AreLinked};
ghost use Rattle.tinyjson_schema_table.specs.Links.{AddsLinks, AddsNext};

use crate::link::{Link, Way, found};
use crate::shape::{Shape, shape_of};
use crate::values::held;
use std::alloc::{AllocError, Global};
use tinyjson::JsonValue;
use tinyjson_schema_keywords::{
    Form, Keyword, form_by, operand, schema_at, schema_map_at, schemas_at,
};

/// How many subschemas a table has at most.
const MOST: usize = 1024;

/// A schema and the subschemas in it that its keywords apply, up to 1,024 of them.
#[derive(Drop)]
pub struct Table<'s> {
    pub schema: &'s JsonValue,
    shapes: Vec<Shape<'s>>,
    /// The links of the first shapes, or of all.
    links: Vec<Vec<Link<'s>>>,
    ghost root: { is_at (tree_in shapes.items 0) (view schema.now) ≡ true },
    ghost linked: { AreLinked shapes.items links.items },
}

/// A subschema that is in a table, with its place there.
#[derive(Clone, Copy)]
pub struct Known<'s> {
    pub shape: &'s Shape<'s>,
    table: &'s Table<'s>,
    at: usize,
    ghost placed: { is_at (tree_in table.now.shapes.items at) (view shape.now.schema.now) ≡ true },
}

impl<'s> Table<'s> {
    ghost use Rattle.tinyjson_schema_table.specs.Places.{LeadsTo};

    /// The table of a schema. The only error is out of memory.
    ///
    /// ```
    /// let table = Table::of(&schema, alloc)?;
    /// ```
    pub fn of(schema: &'s JsonValue, alloc: Global) -> Result<Table<'s>, AllocError>
        ensures { IfOk result (λ table. table.schema ≡ schema.entry) }
    {
        let mut shapes = Vec::new(alloc);
        let first = shape_of(schema, alloc)?;
        shapes.push(first)?;
        let mut links = Vec::new(alloc);
        for _ in 0..MOST {
            add_links(&mut shapes, &mut links, alloc)?;
        }
        Ok(Table {
            schema,
            shapes,
            links,
        })
    }

    /// The table's schema itself.
    pub fn first<'t>(&'t self) -> Option<Known<'t>>
        ensures { LeadsTo (Some (view self.now.schema.now)) result }
    {
        let Some(shape) = self.shapes.get(0) else {
            return None;
        };
        Some(Known {
            shape,
            table: self,
            at: 0,
        })
    }
}

impl<'s> Known<'s> {
    ghost use Rattle.tinyjson_schema_table.specs.Places.{LeadsTo, IsIn};

    /// The subschema to which the way leads, if it is in the table. The link at the place `near` is tried first.
    #[inline(always)]
    pub fn part(self, way: Way<'_>, near: usize) -> Option<Known<'s>>
        ensures { LeadsTo (led_by (view self.entry.shape.now.schema.now) way.entry) result }
    {
        let Some(links) = self.table.links.get(self.at) else {
            return None;
        };
        let Some(at) = found(links.as_slice(), way, near) else {
            return None;
        };
        self.over(at)
    }

    /// What is at the place in the table.
    #[inline(always)]
    fn over(self, at: usize) -> Option<Known<'s>>
        ensures { IsIn self.entry.table.now.shapes.items at result }
    {
        let Some(shape) = self.table.shapes.get(at) else {
            return None;
        };
        Some(Known {
            shape,
            table: self.table,
            at,
        })
    }
}

/// Adds the links of the next subschema, if there is one, and the shapes to which they lead.
fn add_links<'s>(
    shapes: &mut Vec<Shape<'s>>,
    links: &mut Vec<Vec<Link<'s>>>,
    alloc: Global,
) -> Result<(), AllocError>
    ensures { OnOk result
        (AddsNext shapes.old.items shapes.new.items links.old.items links.new.items) }
{
    let Some(shape) = shapes.get(links.len()) else {
        return Ok(());
    };
    let schema = shape.schema;
    let mut found = Vec::new(alloc);
    add_all(schema, shapes, &mut found, alloc)?;
    links.push(found)?;
    Ok(())
}

/// Adds the links of the schema, in the order in which they are searched.
fn add_all<'s>(
    schema: &'s JsonValue,
    shapes: &mut Vec<Shape<'s>>,
    links: &mut Vec<Link<'s>>,
    alloc: Global,
) -> Result<(), AllocError>
    ensures { OnOk result (AddsLinks (view schema.now)
        shapes.old.items shapes.new.items links.old.items links.new.items) }
{
    let keywords = held();
    for &keyword in keywords {
        add_by(keyword, schema, shapes, links, alloc)?;
    }
    Ok(())
}

/// Adds the links by the keyword, if it applies schemas and the schema has it.
fn add_by<'s>(
    keyword: Keyword,
    schema: &'s JsonValue,
    shapes: &mut Vec<Shape<'s>>,
    links: &mut Vec<Link<'s>>,
    alloc: Global,
) -> Result<(), AllocError>
    ensures { OnOk result (AddsLinks (view schema.now)
        shapes.old.items shapes.new.items links.old.items links.new.items) }
{
    match form_by(Some(keyword)) {
        Form::Schema => add_single(keyword, schema, shapes, links, alloc),
        Form::Schemas => add_listed(keyword, schema, shapes, links, alloc),
        Form::SchemaMap => add_keyed(keyword, schema, shapes, links, alloc),
        Form::PatternMap => add_keyed(keyword, schema, shapes, links, alloc),
        _ => Ok(()),
    }
}

/// Adds the link by the keyword's schema.
fn add_single<'s>(
    keyword: Keyword,
    schema: &'s JsonValue,
    shapes: &mut Vec<Shape<'s>>,
    links: &mut Vec<Link<'s>>,
    alloc: Global,
) -> Result<(), AllocError>
    ensures { OnOk result (AddsLinks (view schema.now)
        shapes.old.items shapes.new.items links.old.items links.new.items) }
{
    let Some(part) = schema_at(schema, keyword) else {
        return Ok(());
    };
    add_link(Way::Single(keyword), part, shapes, links, alloc)?;
    Ok(())
}

/// Adds the links by the keyword's list, in its order.
fn add_listed<'s>(
    keyword: Keyword,
    schema: &'s JsonValue,
    shapes: &mut Vec<Shape<'s>>,
    links: &mut Vec<Link<'s>>,
    alloc: Global,
) -> Result<(), AllocError>
    ensures { OnOk result (AddsLinks (view schema.now)
        shapes.old.items shapes.new.items links.old.items links.new.items) }
{
    let listed = schemas_at(schema, keyword);
    for (index, part) in listed.iter().enumerate() {
        add_link(Way::Listed(keyword, index), part, shapes, links, alloc)?;
    }
    Ok(())
}

/// Adds the links by the keyword's object, in the order of its keys.
fn add_keyed<'s>(
    keyword: Keyword,
    schema: &'s JsonValue,
    shapes: &mut Vec<Shape<'s>>,
    links: &mut Vec<Link<'s>>,
    alloc: Global,
) -> Result<(), AllocError>
    ensures { OnOk result (AddsLinks (view schema.now)
        shapes.old.items shapes.new.items links.old.items links.new.items) }
{
    let listed = schema_map_at(schema, keyword, alloc)?;
    for &(key, _) in listed.as_slice() {
        add_at_key(keyword, schema, key.as_str(), shapes, links, alloc)?;
    }
    Ok(())
}

/// Adds the link by the keyword's object at the key.
fn add_at_key<'s>(
    keyword: Keyword,
    schema: &'s JsonValue,
    key: &'s str,
    shapes: &mut Vec<Shape<'s>>,
    links: &mut Vec<Link<'s>>,
    alloc: Global,
) -> Result<(), AllocError>
    ensures { OnOk result (AddsLinks (view schema.now)
        shapes.old.items shapes.new.items links.old.items links.new.items) }
{
    let Some(parts) = schema_at(schema, keyword) else {
        return Ok(());
    };
    let Some(part) = operand(parts, key) else {
        return Ok(());
    };
    add_link(Way::Keyed(keyword, key), part, shapes, links, alloc)?;
    Ok(())
}

/// Adds a link to the subschema, and its shape, if the table has room.
fn add_link<'s>(
    way: Way<'s>,
    schema: &'s JsonValue,
    shapes: &mut Vec<Shape<'s>>,
    links: &mut Vec<Link<'s>>,
    alloc: Global,
) -> Result<(), AllocError>
    ensures { OnOk result ((s : Tree) → led_by s way.entry ≡ Some (view schema.now)
        → AddsLinks s shapes.old.items shapes.new.items links.old.items links.new.items) }
{
    let at = shapes.len();
    if at >= MOST {
        return Ok(());
    }
    let shape = shape_of(schema, alloc)?;
    links.push(Link { way, at })?;
    shapes.push(shape)?;
    Ok(())
}
