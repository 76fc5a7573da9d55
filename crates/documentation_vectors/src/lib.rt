//! The examples of the original crate's documentation, and code of the pages for callers, as tests.
#![tactic(auto)]

#[cfg(test)]
mod conversions;
#[cfg(test)]
mod documents;
#[cfg(test)]
mod examples;
#[cfg(test)]
mod generator;
#[cfg(test)]
mod parser;
#[cfg(test)]
mod values;
