//! The keywords of JSON Schema 2020-12, and the form that the value of each needs.
ghost use Rattle.std.specs.Prelude.{◌≡◌, true};
ghost use Rattle.tinyjson_schema_keywords.specs.Forms.{form_of, form_by, form_at};
ghost use Rattle.tinyjson_schema_keywords.specs.Names.{name, keywords, keyword_among};
ghost use Rattle.tinyjson_schema_keywords.specs.Names.{is_rising, are_apart};

/// A keyword of the standard's vocabularies (Core, sections 8, 10 and 11; Validation, 6 to 9).
#[derive(Clone, Copy)]
pub enum Keyword {
    Schema,
    Id,
    Comment,
    Defs,
    /// An older name of `$defs`, in the standard's meta-schema.
    Definitions,
    Ref,
    Anchor,
    DynamicRef,
    DynamicAnchor,
    Vocabulary,
    AllOf,
    AnyOf,
    OneOf,
    Not,
    If,
    Then,
    Else,
    DependentSchemas,
    PrefixItems,
    Items,
    Contains,
    Properties,
    PatternProperties,
    AdditionalProperties,
    PropertyNames,
    UnevaluatedItems,
    UnevaluatedProperties,
    Type,
    Enum,
    Const,
    MultipleOf,
    Maximum,
    ExclusiveMaximum,
    Minimum,
    ExclusiveMinimum,
    MaxLength,
    MinLength,
    Pattern,
    MaxItems,
    MinItems,
    UniqueItems,
    MaxContains,
    MinContains,
    MaxProperties,
    MinProperties,
    Required,
    DependentRequired,
    Format,
    ContentEncoding,
    ContentMediaType,
    ContentSchema,
    Title,
    Description,
    Default,
    Deprecated,
    ReadOnly,
    WriteOnly,
    Examples,
}

/// All keywords, in the order of their names' bytes.
const KEYWORDS: [Keyword; 58] = [
    Keyword::Anchor,
    Keyword::Comment,
    Keyword::Defs,
    Keyword::DynamicAnchor,
    Keyword::DynamicRef,
    Keyword::Id,
    Keyword::Ref,
    Keyword::Schema,
    Keyword::Vocabulary,
    Keyword::AdditionalProperties,
    Keyword::AllOf,
    Keyword::AnyOf,
    Keyword::Const,
    Keyword::Contains,
    Keyword::ContentEncoding,
    Keyword::ContentMediaType,
    Keyword::ContentSchema,
    Keyword::Default,
    Keyword::Definitions,
    Keyword::DependentRequired,
    Keyword::DependentSchemas,
    Keyword::Deprecated,
    Keyword::Description,
    Keyword::Else,
    Keyword::Enum,
    Keyword::Examples,
    Keyword::ExclusiveMaximum,
    Keyword::ExclusiveMinimum,
    Keyword::Format,
    Keyword::If,
    Keyword::Items,
    Keyword::MaxContains,
    Keyword::MaxItems,
    Keyword::MaxLength,
    Keyword::MaxProperties,
    Keyword::Maximum,
    Keyword::MinContains,
    Keyword::MinItems,
    Keyword::MinLength,
    Keyword::MinProperties,
    Keyword::Minimum,
    Keyword::MultipleOf,
    Keyword::Not,
    Keyword::OneOf,
    Keyword::Pattern,
    Keyword::PatternProperties,
    Keyword::PrefixItems,
    Keyword::Properties,
    Keyword::PropertyNames,
    Keyword::ReadOnly,
    Keyword::Required,
    Keyword::Then,
    Keyword::Title,
    Keyword::Type,
    Keyword::UnevaluatedItems,
    Keyword::UnevaluatedProperties,
    Keyword::UniqueItems,
    Keyword::WriteOnly,
];

/// The names of the keywords, in the order in which the enum lists them.
const NAMES: [&'static str; 58] = [
    "$schema",
    "$id",
    "$comment",
    "$defs",
    "definitions",
    "$ref",
    "$anchor",
    "$dynamicRef",
    "$dynamicAnchor",
    "$vocabulary",
    "allOf",
    "anyOf",
    "oneOf",
    "not",
    "if",
    "then",
    "else",
    "dependentSchemas",
    "prefixItems",
    "items",
    "contains",
    "properties",
    "patternProperties",
    "additionalProperties",
    "propertyNames",
    "unevaluatedItems",
    "unevaluatedProperties",
    "type",
    "enum",
    "const",
    "multipleOf",
    "maximum",
    "exclusiveMaximum",
    "minimum",
    "exclusiveMinimum",
    "maxLength",
    "minLength",
    "pattern",
    "maxItems",
    "minItems",
    "uniqueItems",
    "maxContains",
    "minContains",
    "maxProperties",
    "minProperties",
    "required",
    "dependentRequired",
    "format",
    "contentEncoding",
    "contentMediaType",
    "contentSchema",
    "title",
    "description",
    "default",
    "deprecated",
    "readOnly",
    "writeOnly",
    "examples",
];

/// The keyword with this name, if there is one.
pub fn keyword_of(key: &str) -> Option<Keyword>
    ensures { result ≡ keyword_among keywords key.now }
{
    keyword_among(&KEYWORDS, key)
}

fn keyword_among(keywords: &[Keyword], key: &str) -> Option<Keyword>
    requires rising { is_rising keywords.now ≡ true }
    requires apart { are_apart keywords.now ≡ true }
    ensures { result ≡ keyword_among keywords.now key.now }
{
    match keywords.binary_search_by(|keyword| keyword.name().cmp(key)) {
        Ok(index) => Some(keywords[index]),
        Err(_) => None,
    }
}

impl Keyword {
    /// The keyword's name in a schema.
    pub fn name(self) -> &'static str
        ensures { result.now ≡ name self }
    {
        NAMES[self as usize]
    }
}

/// The form that the standard asks of a keyword's value.
#[derive(Clone, Copy)]
pub enum Form {
    Anything,
    Text,
    Truth,
    List,
    /// The name of a type, or an array of different ones.
    Types,
    Number,
    /// A number above zero, with at most 1,000 digits.
    Divisor,
    /// A whole number, not negative.
    Count,
    /// An array of different strings.
    Keys,
    /// An object whose members are arrays of different strings.
    KeyLists,
    /// A string that is a pattern (Core, 6.4).
    Pattern,
    /// The URI of this version of the standard.
    Dialect,
    Schema,
    /// An array of schemas, not empty.
    Schemas,
    /// An object whose members are schemas.
    SchemaMap,
    /// An object whose members are schemas, and whose keys are patterns.
    PatternMap,
    /// A string, which only the whole schema may have: in a subschema it would change where references lead.
    Base,
    /// A reference to a schema in the whole schema.
    Reference,
    /// A plain name that no other schema of the document has.
    Anchor,
}

/// The form that the value at a name needs. A name that is no keyword needs none.
pub fn form_at(name: &str) -> Form
    ensures { result ≡ form_at name.now }
{
    form_by(keyword_of(name))
}

/// The form that the keyword's value needs; none without a keyword.
pub fn form_by(keyword: Option<Keyword>) -> Form
    ensures { result ≡ form_by keyword }
{
    match keyword {
        Some(keyword) => form_of(keyword),
        None => Form::Anything,
    }
}

fn form_of(keyword: Keyword) -> Form
    ensures { result ≡ form_of keyword }
{
    match keyword {
        Keyword::Schema => Form::Dialect,
        Keyword::Id => Form::Base,
        Keyword::Ref | Keyword::DynamicRef => Form::Reference,
        Keyword::Anchor | Keyword::DynamicAnchor => Form::Anchor,
        Keyword::Comment
        | Keyword::Format
        | Keyword::ContentEncoding
        | Keyword::ContentMediaType
        | Keyword::Title
        | Keyword::Description => Form::Text,
        Keyword::Defs | Keyword::Definitions | Keyword::Properties | Keyword::DependentSchemas =>
            Form::SchemaMap,
        Keyword::PatternProperties => Form::PatternMap,
        Keyword::Pattern => Form::Pattern,
        Keyword::PrefixItems | Keyword::AllOf | Keyword::AnyOf | Keyword::OneOf => Form::Schemas,
        Keyword::Not
        | Keyword::If
        | Keyword::Then
        | Keyword::Else
        | Keyword::Items
        | Keyword::Contains
        | Keyword::AdditionalProperties
        | Keyword::PropertyNames
        | Keyword::UnevaluatedItems
        | Keyword::UnevaluatedProperties
        | Keyword::ContentSchema => Form::Schema,
        Keyword::Type => Form::Types,
        Keyword::Enum | Keyword::Examples => Form::List,
        Keyword::Const | Keyword::Default | Keyword::Vocabulary => Form::Anything,
        Keyword::Maximum
        | Keyword::ExclusiveMaximum
        | Keyword::Minimum
        | Keyword::ExclusiveMinimum => Form::Number,
        Keyword::MultipleOf => Form::Divisor,
        Keyword::MaxLength
        | Keyword::MinLength
        | Keyword::MaxItems
        | Keyword::MinItems
        | Keyword::MaxContains
        | Keyword::MinContains
        | Keyword::MaxProperties
        | Keyword::MinProperties => Form::Count,
        Keyword::Required => Form::Keys,
        Keyword::DependentRequired => Form::KeyLists,
        Keyword::UniqueItems | Keyword::Deprecated | Keyword::ReadOnly | Keyword::WriteOnly =>
            Form::Truth,
    }
}
