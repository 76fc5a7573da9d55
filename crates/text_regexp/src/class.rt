//! Classes of characters.
ghost use Rattle.std.specs.Prelude.{◌≡◌, IfOk, [], ◌∷◌, false};
ghost use Rattle.text_regexp.specs.Forms.{is_item, is_within, is_in_class};

use std::alloc::{AllocError, Global};
use text_categories::Category;

/// An item of a class: a range of characters, a category, or all characters but a category's.
///
/// ```
/// let mut digit = Expression::one_of(Class::single(alloc, Item::Range('0', '9'))?);
/// assert!(rt; digit.matches("7"));
/// ```
#[derive(Clone, Copy)]
pub enum Item {
    Range(char, char),
    In(Category),
    NotIn(Category),
}

impl Item {
    /// Whether it stands for the character.
    fn has(&self, c: char) -> bool
        ensures { result ≡ is_item self.now c }
    {
        match self {
            Item::Range(first, last) => *first <= c && c <= *last,
            Item::In(category) => category.contains(c),
            Item::NotIn(category) => !category.contains(c),
        }
    }
}

/// A class: the characters of its items or, if it is negated, all others.
///
/// ```
/// let mut items = Vec::new(alloc);
/// items.push(Item::Range('a', 'z'))?;
/// let mut other = Expression::one_of(Class {
///     negated: true,
///     items,
/// });
/// assert!(rt; other.matches("A"));
/// ```
#[derive(Drop)]
pub struct Class {
    pub negated: bool,
    pub items: Vec<Item>,
}

impl Class {
    /// The class of one item.
    ///
    /// ```
    /// let class = Class::single(alloc, Item::Range('a', 'z'))?;
    /// assert!(rt; !class.negated);
    /// ```
    pub fn single(alloc: Global, item: Item) -> Result<Class, AllocError>
        ensures negated { IfOk result (λ k. k.negated ≡ false) }
        ensures items { IfOk result (λ k. k.items.items ≡ item ∷ []) }
    {
        let mut items = Vec::new(alloc);
        items.push(item)?;
        Ok(Class {
            negated: false,
            items,
        })
    }

    /// A copy of the class.
    pub(crate) fn copy(&self, alloc: Global) -> Result<Class, AllocError>
        ensures negated { IfOk result (λ k. k.negated ≡ self.now.negated) }
        ensures items { IfOk result (λ k. k.items.items ≡ self.now.items.items) }
    {
        Ok(Class {
            negated: self.negated,
            items: Vec::from_slice(alloc, self.items.as_slice())?,
        })
    }

    /// Whether the character is in the class.
    pub(crate) fn contains(&self, c: char) -> bool
        ensures { result ≡ is_in_class self.now.negated self.now.items.items c }
    {
        is_within(self.items.as_slice(), c) != self.negated
    }
}

/// Whether one of the items has the character.
fn is_within(items: &[Item], c: char) -> bool
    ensures { result ≡ is_within items.now c }
{
    for item in items {
        if item.has(c) {
            return true;
        }
    }
    false
}
