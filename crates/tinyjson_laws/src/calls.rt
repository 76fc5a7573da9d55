//! Laws over the calls: they hold of every result that the contracts of the calls allow, whatever the bodies are.
ghost use Rattle.tinyjson_laws.specs.Calls.{TextAnswered, ReadsBack, EqualStrings, ConvertedBack};

/// Of a text that has a tree a parser returns the value of that tree, and an error only where memory ran out.
pub fn text_answered()
    ensures { TextAnswered }
{}

/// Of the text of a value, compact or indented with white space, a new parser returns an equal value, and an
/// error only where memory ran out.
pub fn reads_back()
    ensures { ReadsBack }
{}

/// The strings that `stringify` returns for two values are equal exactly if the values are.
#[tactic(auto, using(crate::proofs::CallLaws::equal_strings))]
pub fn equal_strings()
    ensures { EqualStrings }
{}

/// What a value was made of, of any of the six types, is what `try_from` returns for it.
#[tactic(auto, using(crate::proofs::CallLaws::converted_back))]
pub fn converted_back()
    ensures { ConvertedBack }
{}
