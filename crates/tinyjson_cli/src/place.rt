//! Where a text ends.
ghost use Rattle.std.specs.Prelude.{◌≡◌, ◌∷◌, []};
ghost use Rattle.tinyjson_cli.specs.Places.{place_of, advance};

use crate::failure::Place;

/// The place after a text.
pub(crate) fn place_after(text: &str) -> Place {
    let mut place = Place { line: 1, column: 0 };
    for c in text.chars() {
        place = after_char(place, c);
    }
    place
}

/// The place after a character.
fn after_char(place: Place, c: char) -> Place
    ensures { place_of result ≡ advance (place_of place) (c ∷ []) }
{
    if c == '\n' {
        return Place {
            line: place.line.saturating_add(1),
            column: 0,
        };
    }
    Place {
        line: place.line,
        column: place.column.saturating_add(1),
    }
}
