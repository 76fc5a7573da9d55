//! What a value violates of a schema, and where.
ghost use Rattle.std.specs.Prelude.{◌≡◌, [], OnOk};
ghost use Rattle.std.specs.Str.{chars};
ghost use Rattle.tinyjson_pointer.specs.Tokens.{tokens_of};
ghost use Rattle.tinyjson_schema_keywords.specs.Names.{name};
ghost use Rattle.tinyjson_schema.specs.Parts.{is_by_part};
ghost use Rattle.tinyjson_schema.specs.Places.{IsAt, IsUnder, IsUnderKey, IsUnderIndex, Enters};
ghost use Rattle.tinyjson_schema.specs.Places.{EntersItem, IsWithin};

use std::alloc::{AllocError, Global};
use tinyjson_pointer::Pointer;
use tinyjson_schema_keywords::Keyword;

/// A place in the schema, and the place in the value that violates it (Core, 12.3).
#[derive(Drop)]
pub struct Violation {
    /// The place of the keyword, or of the schema `false`.
    pub keyword_location: Pointer,
    /// The place in the value.
    pub instance_location: Pointer,
}

// What changes a violation is not inlined, for the stack that nested schemas take.
impl Violation {
    /// The value violates the schema `false`.
    pub fn of_schema(alloc: Global) -> Violation
        ensures { IsAt [] [] result }
    {
        Violation {
            keyword_location: Pointer::root(alloc),
            instance_location: Pointer::root(alloc),
        }
    }

    /// Turns a violation of a schema into one of the schema around it, which has it at the keyword.
    #[inline(never)]
    pub fn enter_keyword(&mut self, alloc: Global, keyword: Keyword) -> Result<(), AllocError>
        ensures { OnOk result (IsUnder (name keyword) self.old self.new) }
    {
        self.put_under(alloc, keyword.name())?;
        Ok(())
    }

    /// Turns a violation of a schema into one of the schema around it, which has it in the keyword's list.
    #[inline(never)]
    pub fn enter_listed(
        &mut self,
        alloc: Global,
        keyword: Keyword,
        index: usize,
    ) -> Result<(), AllocError>
        ensures { OnOk result (IsUnderIndex keyword index self.old self.new) }
    {
        self.keyword_location.prepend_index(alloc, index)?;
        self.enter_keyword(alloc, keyword)?;
        Ok(())
    }

    /// Turns a violation of a schema into one of the schema around it, which has it in the keyword's object at a
    /// key.
    #[inline(never)]
    pub fn enter_keyed(
        &mut self,
        alloc: Global,
        keyword: Keyword,
        key: &str,
    ) -> Result<(), AllocError>
        ensures { OnOk result (IsUnderKey keyword (chars key.now) self.old self.new) }
    {
        self.put_under(alloc, key)?;
        self.enter_keyword(alloc, keyword)?;
        Ok(())
    }

    /// Puts a token in front of the place in the schema.
    fn put_under(&mut self, alloc: Global, token: &str) -> Result<(), AllocError>
        ensures { OnOk result (IsUnder (chars token.now) self.old self.new) }
    {
        let token = String::from_str(alloc, token)?;
        self.keyword_location.prepend(token)?;
        Ok(())
    }

    /// Turns a violation by a member into one by the object. The object's schema applies the member's by the
    /// applicator.
    #[inline(never)]
    pub fn enter_member(
        &mut self,
        alloc: Global,
        applicator: Keyword,
        key: &str,
    ) -> Result<(), AllocError>
        ensures { OnOk result
            (Enters applicator (chars key.now) (chars key.now) self.old self.new) }
    {
        let token = String::from_str(alloc, key)?;
        self.instance_location.prepend(token)?;
        if is_by_part(applicator) {
            self.put_under(alloc, key)?;
            self.put_under(alloc, applicator.name())?;
            return Ok(());
        }
        self.put_under(alloc, applicator.name())?;
        Ok(())
    }

    /// Turns a violation by a member into one by the object, of the same schema.
    #[inline(never)]
    pub fn enter_value(&mut self, alloc: Global, key: &str) -> Result<(), AllocError>
        ensures { OnOk result (IsWithin (chars key.now) self.old self.new) }
    {
        let token = String::from_str(alloc, key)?;
        self.instance_location.prepend(token)?;
        Ok(())
    }

    /// Turns a violation by an item into one by the array. The array's schema applies the item's by the applicator.
    #[inline(never)]
    pub fn enter_item(
        &mut self,
        alloc: Global,
        applicator: Keyword,
        index: usize,
    ) -> Result<(), AllocError>
        ensures { OnOk result (EntersItem applicator index self.old self.new) }
    {
        self.instance_location.prepend_index(alloc, index)?;
        if is_by_part(applicator) {
            self.keyword_location.prepend_index(alloc, index)?;
            self.put_under(alloc, applicator.name())?;
            return Ok(());
        }
        self.put_under(alloc, applicator.name())?;
        Ok(())
    }
}

/// Whether the keyword has a schema for each part, not one for all.
fn is_by_part(applicator: Keyword) -> bool
    ensures { result ≡ is_by_part applicator }
{
    matches!(applicator, Keyword::Properties | Keyword::PrefixItems)
}
