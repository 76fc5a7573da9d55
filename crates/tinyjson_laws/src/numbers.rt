//! Laws of numbers: a decimal, and the texts that spell it.
ghost use Rattle.tinyjson_laws.specs.Numbers.{
  OneDecimal,
  DecimalsHaveTexts,
  DecimalReadsBack,
  SameDecimal,
  OneNumber,
  WholeNumberValue,
  IntegersDiffer,
  NaturalsDiffer,
};

/// A text spells at most one decimal.
pub fn one_decimal()
    ensures { OneDecimal }
{}

/// A decimal is in its one form exactly if some text spells it.
#[tactic(auto, using(crate::proofs::NumberLaws::decimals_have_texts))]
pub fn decimals_have_texts()
    ensures { DecimalsHaveTexts }
{}

/// The text of a decimal spells that decimal.
#[tactic(auto, using(crate::proofs::NumberLaws::decimal_reads_back))]
pub fn decimal_reads_back()
    ensures { DecimalReadsBack }
{}

/// Two decimals have one text exactly if they are one.
#[tactic(auto, using(crate::proofs::NumberLaws::same_decimal))]
pub fn same_decimal()
    ensures { SameDecimal }
{}

/// Two numbers with one decimal are one.
#[tactic(auto, using(crate::proofs::WholeNumbers::one_number))]
pub fn one_number()
    ensures { OneNumber }
{}

/// The decimal of a whole number means that number: the value of its digits times ten to its power, with its
/// sign.
#[tactic(auto, using(crate::proofs::WholeNumbers::whole_number_value))]
pub fn whole_number_value()
    ensures { WholeNumberValue }
{}

/// Two integers of `i64` with one decimal are one, so what `to_i64` returns for the number of an integer is
/// that integer.
#[tactic(auto, using(crate::proofs::WholeNumbers::integers_differ))]
pub fn integers_differ()
    ensures { IntegersDiffer }
{}

/// Two integers of `u64` with one decimal are one.
#[tactic(auto, using(crate::proofs::WholeNumbers::naturals_differ))]
pub fn naturals_differ()
    ensures { NaturalsDiffer }
{}
