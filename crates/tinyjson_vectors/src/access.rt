//! A type of a user's own that sees a part of a value, and a function over every such type.
ghost use Rattle.std.specs.Prelude.{◌≡◌, Some, None, Ok, Err, refl};
ghost use Rattle.tinyjson_vectors.specs.Access.{mark_part};

use std::mem;
use tinyjson::{InnerAsRef, InnerAsRefMut, JsonValue};

/// Sees null, and nothing for writing.
#[derive(Debug, Drop)]
pub struct NullMark;

impl InnerAsRef for NullMark {
    ghost part = { mark_part };

    fn json_value_as(v: &JsonValue) -> Option<&NullMark> {
        match v {
            JsonValue::Null => Some(&NullMark),
            _ => None,
        }
    }
}

impl InnerAsRefMut for NullMark {
    ghost part = { λ _. None };

    ghost put = { λ v _. v };

    fn json_value_as_mut(_v: &mut JsonValue) -> Option<&mut NullMark> {
        None
    }

    ghost part_of_put = { λ v x seen. Prim.cc };

    ghost put_of_part = { λ v x same. refl };
}

/// Puts `x` in the place of the part that `T` sees, and returns that part. Where `T` sees nothing,
/// it gives `x` back as an `Err`, and the value stays as it is.
///
/// ```
/// let mut value = JsonValue::Boolean(false);
/// assert!(rt; swap_in(&mut value, true) == Ok(false));
/// assert!(rt; value == JsonValue::Boolean(true));
/// ```
pub fn swap_in<T: InnerAsRefMut>(v: &mut JsonValue, x: T) -> Result<T, T>
    ensures seen { (old : T) → T.part v.old ≡ Some old →
        (result ≡ Ok old) × (v.new ≡ T.put v.old x) }
    ensures unseen { T.part v.old ≡ None → (result ≡ Err x) × (v.new ≡ v.old) }
{
    match v.get_mut::<T>() {
        Some(place) => Ok(mem::replace(place, x)),
        None => Err(x),
    }
}

#[cfg(test)]
mod tests {
    use super::*;

    #[test]
    fn a_part_is_seen_and_swapped(rt: HostRuntime) {
        assert!(rt; JsonValue::Null.get::<NullMark>().is_some());
        assert!(rt; JsonValue::Boolean(false).get::<NullMark>().is_none());
        let mut value = JsonValue::Boolean(false);
        assert_eq!(rt; swap_in(&mut value, true), Ok(false));
        assert!(rt; value == JsonValue::Boolean(true));
        let mut null = JsonValue::Null;
        assert_eq!(rt; swap_in(&mut null, true), Err(true));
        assert!(rt; null == JsonValue::Null);
        assert!(rt; swap_in(&mut null, NullMark).is_err());
    }
}
