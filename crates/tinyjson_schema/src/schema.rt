//! Schemas, which are checked before values are.
ghost use Rattle.std.specs.Prelude.{◌≡◌, true, IfOk, IfErr};
ghost use Rattle.tinyjson.specs.Equality.{tree_eq};
ghost use Rattle.tinyjson.specs.View.{view};
ghost use Rattle.tinyjson_schema.specs.Leads.{are_led};
ghost use Rattle.tinyjson_schema.specs.Schemas.{is_schema};
ghost use Rattle.tinyjson_schema.specs.declared.schema.SchemaError.{SchemaError};
ghost use Rattle.std.specs.Prelude.{Some};
ghost use Rattle.tinyjson_schema.specs.Messages.{schema_error_message};

use crate::lead::Lead;
use crate::leads::leads_of;
use crate::refused::{Reason, refused_place};
use crate::validate::{find_violation, find_violations};
use crate::violation::Violation;
use crate::walk::{CheckError, Ground, Walk};
use std::alloc::{AllocError, Global};
use std::error::Error;
use std::fmt;
use tinyjson::JsonValue;
use tinyjson_pointer::Pointer;
use tinyjson_schema_keywords::{Budget, Document, KeptPatterns, Whole, anchors_of, repeated};
use tinyjson_schema_table::Table;
use tinyjson_view::AsView;

/// A schema that can be applied. Each keyword in it is applied or is an annotation, and its value has the
/// standard's form. Each reference leads to a schema in it, and not in a circle.
#[derive(Drop)]
pub struct Schema<'s> {
    whole: Whole<'s>,
    leads: Vec<Lead<'s>>,
    table: Table<'s>,
    ghost checked: { is_schema (view whole.root.now) true (view whole.root.now) ≡ true },
    ghost led: { are_led (view whole.root.now) leads.items ≡ true },
    ghost same: { tree_eq (view table.schema.now) (view whole.root.now) ≡ true },
}

/// How much a check may do.
#[derive(Clone, Copy, Debug, PartialEq, Eq)]
pub struct Limits {
    /// How many nested schemas may be applied, by keywords and by references.
    pub nested: usize,
    /// How many steps the check may take in all. A step is a schema that is applied to a part of the value, a key that
    /// is looked up for it, a value of `enum` that is compared, or 32 bytes that are searched for a pattern.
    pub steps: u64,
}

/// How a value is checked.
#[derive(Clone, Copy, Debug, PartialEq, Eq)]
pub struct Checks {
    /// How much the check may do.
    pub limits: Limits,
    /// Whether `format` is an assertion (Validation, 7.2.2). By default it is only an annotation. Names that
    /// `text_formats` does not have assert nothing.
    pub formats: bool,
}

/// Why a tree is not accepted as a schema.
#[derive(Debug, Drop)]
pub enum SchemaError {
    /// The tree can't be applied at this place. It has a keyword's value whose form is not the standard's, or
    /// a schema that is neither an object nor a boolean. Or a reference there leads to no schema in the tree, or in
    /// a circle. Or it has a name that another schema has.
    Refused(Pointer),
    /// The pattern at this place is too deep or too large.
    PatternLimit(Pointer),
    /// An allocation failed.
    OutOfMemory,
}

impl From<AllocError> for SchemaError {
    ghost from_gives = { λ _ e. e ≡ SchemaError.OutOfMemory };

    fn from(_: AllocError) -> SchemaError {
        SchemaError::OutOfMemory
    }
}

impl fmt::Display for SchemaError {
    ghost output = { λ e. Some (schema_error_message e) };

    fn fmt<W: fmt::Write>(&self, f: &mut fmt::Formatter<W>) -> fmt::Result {
        match self {
            SchemaError::Refused(place) => write!(f, "it can't be applied at '{place}'"),
            SchemaError::PatternLimit(place) => write!(
                f,
                "the pattern at '{place}' is too deep or too large"
            ),
            SchemaError::OutOfMemory => f.write_str("out of memory"),
        }
    }
}

impl Error for SchemaError {}

impl<'s> Schema<'s> {
    ghost use Rattle.tinyjson_schema.specs.Reading.{ReadsSchema, tree_of, root_in};
    ghost use Rattle.tinyjson_schema.specs.Every.{AreFirst, AreNoneIfValid};
    ghost use Rattle.tinyjson_schema.specs.Valid.{Validates, Agrees, ValidatesIn, AgreesIn};
    ghost use Rattle.tinyjson_schema.specs.Valid.{IsBeyond};

    /// Checks a tree, and returns it as a schema. The error has the place of what can't be applied (Core, 4.3), or
    /// of a pattern that is too deep or too large.
    ///
    /// It is recursive: it takes stack with the nesting of the tree.
    ///
    /// ```
    /// let schema = Schema::read(&tree, alloc)?;
    /// ```
    pub fn read(tree: &'s JsonValue, alloc: Global) -> Result<Schema<'s>, SchemaError>
        ensures { ReadsSchema (view tree.now) result }
    {
        let anchors = anchors_of(tree, alloc)?;
        let again = repeated(anchors.as_slice(), alloc)?;
        let whole = Whole {
            root: tree,
            anchors,
            patterns: KeptPatterns::new(alloc),
            budget: Budget::new(u64::MAX),
        };
        let document = Document {
            whole: &whole,
            again,
        };
        match refused_place(document, alloc)? {
            None => {
                let leads = leads_of(&whole, alloc)?;
                let table = Table::of(tree, alloc)?;
                Ok(Schema {
                    whole,
                    leads,
                    table,
                })
            }
            Some(place) => match place.reason {
                Reason::Misfit => Err(SchemaError::Refused(place.pointer)),
                Reason::PatternLimit => Err(SchemaError::PatternLimit(place.pointer)),
            },
        }
    }

    /// The whole schema, with its anchors and the patterns parsed so far.
    pub fn whole(&self) -> &Whole<'s>
        ensures { result.now ≡ self.now.whole }
    {
        &self.whole
    }

    /// What the value violates of the schema, and where in the value. `None` means that the value is valid. Up to
    /// `steps` nested schemas are applied, by keywords and by references; for more the error is `TooDeep`. The
    /// other error is out of memory. The time is bounded only by [`Schema::invalid_place_within`].
    ///
    /// It calls itself for each schema that is applied, so it takes stack with the nesting of these.
    ///
    /// ```
    /// let place = schema.invalid_place(&value, 200, alloc)?;
    /// ```
    pub fn invalid_place<'v, V: AsView<'v>>(
        &self,
        value: V,
        steps: usize,
        alloc: Global,
    ) -> Result<Option<Violation>, CheckError>
        ensures judged { Validates steps (tree_of self.now) (V.tree value) result }
        ensures only { IfOk result (λ found. Agrees (tree_of self.now) (V.tree value) found) }
    {
        let limits = Limits {
            nested: steps,
            steps: u64::MAX,
        };
        self.invalid_place_within(value, limits, alloc)
    }

    /// [`Schema::invalid_place`] with a limit on all steps of the check, too. For more of these the error is
    /// `TooMuch`. So a check ends soon, whatever the schema and the value are.
    ///
    /// ```
    /// let limits = Limits { nested: 200, steps: 1_000_000 };
    /// let place = schema.invalid_place_within(&value, limits, alloc)?;
    /// ```
    pub fn invalid_place_within<'v, V: AsView<'v>>(
        &self,
        value: V,
        limits: Limits,
        alloc: Global,
    ) -> Result<Option<Violation>, CheckError>
        ensures judged { Validates limits.nested (tree_of self.now) (V.tree value) result }
        ensures only { IfOk result (λ found. Agrees (tree_of self.now) (V.tree value) found) }
    {
        let checks = Checks {
            limits,
            formats: false,
        };
        self.invalid_place_by(value, checks, alloc)
    }

    /// [`Schema::invalid_place_within`], with `format` as an assertion if that is asked for.
    ///
    /// ```
    /// let checks = Checks { limits, formats: true };
    /// let place = schema.invalid_place_by(&value, checks, alloc)?;
    /// ```
    pub fn invalid_place_by<'v, V: AsView<'v>>(
        &self,
        value: V,
        checks: Checks,
        alloc: Global,
    ) -> Result<Option<Violation>, CheckError>
        ensures judged { ValidatesIn checks.limits.nested (root_in self.now checks.formats)
            (V.tree value) result }
        ensures only { IfOk result
            (λ found. AgreesIn (root_in self.now checks.formats) (V.tree value) found) }
    {
        self.whole.budget.renew(checks.limits.steps);
        let ground = Ground {
            whole: &self.whole,
            leads: self.leads.as_slice(),
            known: self.table.first(),
            formats: checks.formats,
        };
        let walk = Walk {
            ground: &ground,
            steps: checks.limits.nested,
            alloc,
        };
        find_violation(&value.as_view(), walk)
    }

    /// The first violations by the value, up to `most`, in order. The first is that of [`Schema::invalid_place_by`]. All
    /// of them take more steps than the first one.
    ///
    /// ```
    /// let places = schema.invalid_places_by(&value, checks, 100, alloc)?;
    /// ```
    pub fn invalid_places_by<'v, V: AsView<'v>>(
        &self,
        value: V,
        checks: Checks,
        most: usize,
        alloc: Global,
    ) -> Result<Vec<Violation>, CheckError>
        ensures first { IfOk result (λ found. AreFirst most (root_in self.now checks.formats)
            checks.limits.nested (V.tree value) found.items) }
        ensures none { IfOk result (λ found. AreNoneIfValid most (root_in self.now checks.formats)
            (V.tree value) found.items) }
        ensures deep { IfErr result (IsBeyond checks.limits.nested
            (root_in self.now checks.formats) (V.tree value)) }
    {
        let limits = checks.limits;
        self.whole.budget.renew(limits.steps);
        let formats = checks.formats;
        let ground = Ground {
            whole: &self.whole,
            leads: self.leads.as_slice(),
            known: self.table.first(),
            formats,
        };
        let walk = Walk {
            ground: &ground,
            steps: limits.nested,
            alloc,
        };
        find_violations(&value.as_view(), walk, most)
    }
}
