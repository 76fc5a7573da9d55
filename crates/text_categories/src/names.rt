//! The names of categories in ECMA-262.
ghost use Rattle.std.specs.Prelude.{◌≡◌, map};
ghost use Rattle.text_categories.specs.Names.{is_name, value_in, value_named, row};

use crate::Category;

/// Each name of a value of `General_Category`, and the numbers of its first and last category
/// (ECMA-262, 22.2.1, "Value aliases and canonical values").
const VALUES: [(&[u8], u32, u32); 80] = [
    (b"Cased_Letter", 0, 2),
    (b"LC", 0, 2),
    (b"Letter", 0, 4),
    (b"L", 0, 4),
    (b"Uppercase_Letter", 0, 0),
    (b"Lu", 0, 0),
    (b"Lowercase_Letter", 1, 1),
    (b"Ll", 1, 1),
    (b"Titlecase_Letter", 2, 2),
    (b"Lt", 2, 2),
    (b"Modifier_Letter", 3, 3),
    (b"Lm", 3, 3),
    (b"Other_Letter", 4, 4),
    (b"Lo", 4, 4),
    (b"Mark", 5, 7),
    (b"M", 5, 7),
    (b"Combining_Mark", 5, 7),
    (b"Nonspacing_Mark", 5, 5),
    (b"Mn", 5, 5),
    (b"Spacing_Mark", 6, 6),
    (b"Mc", 6, 6),
    (b"Enclosing_Mark", 7, 7),
    (b"Me", 7, 7),
    (b"Number", 8, 10),
    (b"N", 8, 10),
    (b"Decimal_Number", 8, 8),
    (b"Nd", 8, 8),
    (b"digit", 8, 8),
    (b"Letter_Number", 9, 9),
    (b"Nl", 9, 9),
    (b"Other_Number", 10, 10),
    (b"No", 10, 10),
    (b"Punctuation", 11, 17),
    (b"P", 11, 17),
    (b"punct", 11, 17),
    (b"Connector_Punctuation", 11, 11),
    (b"Pc", 11, 11),
    (b"Dash_Punctuation", 12, 12),
    (b"Pd", 12, 12),
    (b"Open_Punctuation", 13, 13),
    (b"Ps", 13, 13),
    (b"Close_Punctuation", 14, 14),
    (b"Pe", 14, 14),
    (b"Initial_Punctuation", 15, 15),
    (b"Pi", 15, 15),
    (b"Final_Punctuation", 16, 16),
    (b"Pf", 16, 16),
    (b"Other_Punctuation", 17, 17),
    (b"Po", 17, 17),
    (b"Separator", 18, 20),
    (b"Z", 18, 20),
    (b"Space_Separator", 18, 18),
    (b"Zs", 18, 18),
    (b"Line_Separator", 19, 19),
    (b"Zl", 19, 19),
    (b"Paragraph_Separator", 20, 20),
    (b"Zp", 20, 20),
    (b"Symbol", 21, 24),
    (b"S", 21, 24),
    (b"Math_Symbol", 21, 21),
    (b"Sm", 21, 21),
    (b"Currency_Symbol", 22, 22),
    (b"Sc", 22, 22),
    (b"Modifier_Symbol", 23, 23),
    (b"Sk", 23, 23),
    (b"Other_Symbol", 24, 24),
    (b"So", 24, 24),
    (b"Other", 25, 29),
    (b"C", 25, 29),
    (b"Control", 25, 25),
    (b"Cc", 25, 25),
    (b"cntrl", 25, 25),
    (b"Format", 26, 26),
    (b"Cf", 26, 26),
    (b"Surrogate", 29, 29),
    (b"Cs", 29, 29),
    (b"Unassigned", 27, 27),
    (b"Cn", 27, 27),
    (b"Private_Use", 28, 28),
    (b"Co", 28, 28),
];

/// The category or group with this name.
pub(crate) fn value_named(name: &[char]) -> Option<Category>
    ensures { result ≡ value_named name.now }
{
    value_in(&VALUES, name)
}

/// The category or group with this name in the table.
fn value_in(table: &[(&[u8], u32, u32)], name: &[char]) -> Option<Category>
    ensures { result ≡ value_in (map row table.now) name.now }
{
    let mut rest = table;
    while let [entry, after @ ..] = rest {
        if is_name(name, entry.0) {
            return Some(Category {
                first: entry.1,
                last: entry.2,
            });
        }
        rest = after;
    }
    None
}

/// Whether the text has the characters of this name.
fn is_name(text: &[char], name: &[u8]) -> bool
    ensures { result ≡ is_name text.now name.now }
{
    let mut rest = text;
    let mut left = name;
    while let [first, after @ ..] = rest {
        let [wanted, others @ ..] = left else {
            return false;
        };
        if *first as u32 != u32::from(*wanted) {
            return false;
        }
        rest = after;
        left = others;
    }
    left.is_empty()
}
