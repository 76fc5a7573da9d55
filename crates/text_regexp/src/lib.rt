//! Regular expressions that are built from smaller ones, and matched against texts. Each is a tree
//! with marks, which move over the characters of a text.
//!
//! ```
//! let digit = Expression::one_of(Class::single(alloc, Item::Range('0', '9'))?);
//! let mut year = digit.repeat(alloc, 4, Some(4))?;
//! let is_year = year.matches("2026");
//! assert!(rt; is_year);
//! ```
#![tactic(auto)]

mod assertion;
mod automaton;
mod build;
mod class;
mod expression;
mod marked;
mod run;
mod state;
mod work;

pub use assertion::Assertion;
pub use automaton::Automaton;
pub use class::{Class, Item};
pub use expression::Expression;
pub use work::Work;
