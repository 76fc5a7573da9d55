//! Laws of prefixes: what can still become a text, what cannot, and where an error comes.
//!
//! A list is viable if some list completes it to a text. It is without error so far (`IsErrorFree`) if some
//! list completes it to a text, or to one that ends with its first key that is not a string. The loose grammar
//! (`IsLoose`) is the grammar without four of its conditions: leading zeros, powers of ten of any size, lone
//! surrogates and keys of any kind are let pass.
ghost use Rattle.tinyjson_laws.specs.Prefixes.{
  AcceptedIsLoose,
  EmptyIsViable,
  ViableIsErrorFree,
  ErrorFreeIsLooselyViable,
  UnviableStaysSo,
  ValuesBegin,
  GrowthBegins,
  UnviableAtFirst,
  ShortestInOrder,
  RefusedNotTooSoon,
  RefusedAtEnd,
  RefusedNotTooLate,
  InterruptedNotTooLate,
};

/// Every text is one of the loose grammar.
#[tactic(auto, using(crate::proofs::PrefixLaws::accepted_is_loose))]
pub fn accepted_is_loose()
    ensures { AcceptedIsLoose }
{}

/// The empty list can be completed to a text.
pub fn empty_is_viable()
    ensures { EmptyIsViable }
{}

/// What can be completed to a text is without error so far.
#[tactic(auto, using(crate::proofs::PrefixLaws::viable_is_error_free))]
pub fn viable_is_error_free()
    ensures { ViableIsErrorFree }
{}

/// What is without error so far can be completed to a text of the loose grammar.
#[tactic(auto, using(crate::proofs::PrefixLaws::error_free_is_loosely_viable))]
pub fn error_free_is_loosely_viable()
    ensures { ErrorFreeIsLooselyViable }
{}

/// What cannot be completed cannot be completed with more characters after it, and what has an error
/// has it still.
#[tactic(auto, using(crate::proofs::PrefixLaws::unviable_stays_so))]
pub fn unviable_stays_so()
    ensures { UnviableStaysSo }
{}

/// With which characters a value of the grammar begins, and with which none does, not even of the loose one.
#[tactic(auto, using(crate::proofs::PrefixLaws::values_begin))]
pub fn values_begin()
    ensures { ValuesBegin }
{}

/// With which characters a value begins that is not a literal: memory runs out only of a list whose first
/// character, after white space, is such a one.
#[tactic(auto, using(crate::proofs::PrefixLaws::growth_begins))]
pub fn growth_begins()
    ensures { GrowthBegins }
{}

/// A list whose first character is not white space and begins no value cannot be completed, not even
/// to a text of the loose grammar.
#[tactic(auto, using(crate::proofs::PrefixLaws::no_first))]
pub fn unviable_at_first()
    ensures { UnviableAtFirst }
{}

/// The shortest prefix that cannot be completed is no longer than the shortest with an error, and that is
/// no longer than the shortest that cannot be completed in the loose grammar. Where a list has a later one of
/// these, no earlier one is missing.
pub fn shortest_in_order()
    ensures { ShortestInOrder }
{}

/// An error for another cause than memory has consumed at least all but the last character of the shortest
/// prefix with an error, and so of the shortest prefix that no text continues.
pub fn refused_not_too_soon()
    ensures { RefusedNotTooSoon }
{}

/// Where no prefix has an error, an error for another cause than memory has consumed the whole list.
#[tactic(auto, using(crate::proofs::PrefixLaws::refused_at_end))]
pub fn refused_at_end()
    ensures { RefusedAtEnd }
{}

/// An error, also one of memory, has consumed no more than the shortest prefix that cannot be completed in
/// the loose grammar.
pub fn refused_not_too_late()
    ensures { RefusedNotTooLate }
{}

/// Out of memory is returned before the shortest prefix that cannot be completed in the loose grammar is consumed.
/// It is returned no later than one character after the first error, but for late characters between them: digits,
/// and the characters of escapes and exponents (`is_late`).
pub fn interrupted_not_too_late()
    ensures { InterruptedNotTooLate }
{}
