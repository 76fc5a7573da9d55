//! What may be known of a schema.
ghost use Rattle.std.specs.Prelude.{◌≡◌, true};
ghost use Rattle.tinyjson.specs.Tree.{Tree};
ghost use Rattle.tinyjson_schema_table.specs.Links.{led_by};
ghost use Rattle.tinyjson_schema_table.specs.Places.{is_of, LeadsTo};

use crate::link::Way;
use crate::table::Known;

/// [`Known::part`] of a schema that may be known.
#[inline(always)]
pub fn known_part<'s>(known: Option<Known<'s>>, way: Way<'_>, near: usize) -> Option<Known<'s>>
    ensures { (s : Tree) → is_of known.entry s ≡ true → LeadsTo (led_by s way.entry) result }
{
    match known {
        Some(known) => known.part(way, near),
        None => None,
    }
}
