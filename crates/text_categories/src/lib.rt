//! Unicode's general categories of characters and their groups, by the names that RFC 9485 uses.
//!
//! ```
//! let capital = Category::named('L', Some('u'));
//! assert!(rt; capital.is_some_and(|k| k.contains('É') && !k.contains('é')));
//! ```
#![tactic(auto)]

ghost use Rattle.std.specs.Prelude.{◌≡◌, Some, None, codes};
ghost use Rattle.text_categories.specs.Categories.{named, is_in, general_category};
ghost use Rattle.text_categories.specs.Categories.{category_number, numbered};
ghost use Rattle.text_categories.specs.Names.{value_named};
ghost use Rattle.text_categories.specs.Runs.{run_category, IsPartition};

mod names;
mod table;

use table::RUNS;

/// The number of the category of unassigned code points.
const UNASSIGNED: u32 = 27;

/// A general category or a group of categories: those with numbers from the first to the last.
///
/// ```
/// let digit = Category::named('N', Some('d'));
/// assert!(rt; digit.is_some_and(|k| k.contains('7') && !k.contains('x')));
/// ```
#[derive(Clone, Copy, Debug, PartialEq, Eq)]
pub struct Category {
    first: u32,
    last: u32,
}

impl Category {
    /// The category in the group with this letter, as `Lu`; without a letter the whole group, as `L`. `None`
    /// if RFC 9485 has no such name (section 3, `IsCategory`).
    ///
    /// ```
    /// assert!(rt; Category::named('N', Some('d')).is_some());
    /// assert!(rt; Category::named('N', Some('x')).is_none());
    /// ```
    pub fn named(group: char, letter: Option<char>) -> Option<Category>
        ensures { result ≡ named group letter }
    {
        let Some(letter) = letter else {
            return group_named(group);
        };
        match category_number(group, letter) {
            Some(number) => Some(Category {
                first: number,
                last: number,
            }),
            None => None,
        }
    }

    /// The category or group with this name among the values of `General_Category` in ECMA-262
    /// (22.2.1), as `Lu`, `Uppercase_Letter` or `Letter`. `None` if there is no such name.
    ///
    /// ```
    /// let digit = Category::value_named(&['d', 'i', 'g', 'i', 't']);
    /// assert!(rt; digit.is_some_and(|k| k.contains('7') && !k.contains('x')));
    /// ```
    pub fn value_named(name: &[char]) -> Option<Category>
        ensures { result ≡ value_named name.now }
    {
        names::value_named(name)
    }

    /// Whether the character is in the category, or in one of the group.
    ///
    /// ```
    /// let letter = Category::named('L', None);
    /// assert!(rt; letter.is_some_and(|k| k.contains('é') && !k.contains('7')));
    /// ```
    pub fn contains(self, c: char) -> bool
        ensures { result ≡ is_in self.first self.last c }
    {
        let number = general_category(c);
        self.first <= number && number <= self.last
    }
}

/// The group of this letter.
fn group_named(group: char) -> Option<Category>
    ensures { result ≡ named group None }
{
    let (first, last) = match group {
        'L' => (0, 4),
        'M' => (5, 7),
        'N' => (8, 10),
        'P' => (11, 17),
        'Z' => (18, 20),
        'S' => (21, 24),
        'C' => (25, 28),
        _ => return None,
    };
    Some(Category { first, last })
}

/// The number of a category.
fn category_number(group: char, letter: char) -> Option<u32>
    ensures { result ≡ category_number group letter }
{
    match group {
        'L' => letter_number(letter),
        'M' => mark_number(letter),
        'N' => digit_number(letter),
        'P' => punctuation_number(letter),
        'Z' => separator_number(letter),
        'S' => symbol_number(letter),
        'C' => other_number(letter),
        _ => None,
    }
}

fn letter_number(letter: char) -> Option<u32>
    ensures { result ≡ numbered 0 (codes "ultmo") letter }
{
    match letter {
        'u' => Some(0),
        'l' => Some(1),
        't' => Some(2),
        'm' => Some(3),
        'o' => Some(4),
        _ => None,
    }
}

fn mark_number(letter: char) -> Option<u32>
    ensures { result ≡ numbered 5 (codes "nce") letter }
{
    match letter {
        'n' => Some(5),
        'c' => Some(6),
        'e' => Some(7),
        _ => None,
    }
}

fn digit_number(letter: char) -> Option<u32>
    ensures { result ≡ numbered 8 (codes "dlo") letter }
{
    match letter {
        'd' => Some(8),
        'l' => Some(9),
        'o' => Some(10),
        _ => None,
    }
}

fn punctuation_number(letter: char) -> Option<u32>
    ensures { result ≡ numbered 11 (codes "cdseifo") letter }
{
    match letter {
        'c' => Some(11),
        'd' => Some(12),
        's' => Some(13),
        'e' => Some(14),
        'i' => Some(15),
        'f' => Some(16),
        'o' => Some(17),
        _ => None,
    }
}

fn separator_number(letter: char) -> Option<u32>
    ensures { result ≡ numbered 18 (codes "slp") letter }
{
    match letter {
        's' => Some(18),
        'l' => Some(19),
        'p' => Some(20),
        _ => None,
    }
}

fn symbol_number(letter: char) -> Option<u32>
    ensures { result ≡ numbered 21 (codes "mcko") letter }
{
    match letter {
        'm' => Some(21),
        'c' => Some(22),
        'k' => Some(23),
        'o' => Some(24),
        _ => None,
    }
}

fn other_number(letter: char) -> Option<u32>
    ensures { result ≡ numbered 25 (codes "cfno") letter }
{
    match letter {
        'c' => Some(25),
        'f' => Some(26),
        'n' => Some(27),
        'o' => Some(28),
        _ => None,
    }
}

/// The number of the category of a character.
fn general_category(c: char) -> u32
    ensures { result ≡ general_category c }
{
    search(&RUNS, c as u32)
}

/// The category of a code point in the runs. It is found by binary search.
fn search(runs: &[u32], c: u32) -> u32
    requires { IsPartition runs.now }
    ensures { result ≡ run_category runs.now c }
{
    let mut low = 0;
    let mut high = runs.len();
    while low < high {
        let mid = low + (high - low) / 2;
        if c < runs[mid] / 32 {
            high = mid;
        } else {
            low = mid + 1;
        }
    }
    if low < runs.len() {
        runs[low] % 32
    } else {
        UNASSIGNED
    }
}
