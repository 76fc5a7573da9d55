//! A text checked without building a value.
ghost use Rattle.std.specs.Prelude.{◌≡◌, [], IfErr, None, OnOk, ⊤};
ghost use Rattle.tinyjson_grammar.specs.Machine.{awaited, next};
ghost use Rattle.tinyjson_grammar.specs.declared.error.JsonParseErrorKind.TheVariants.{OutOfMemory};
ghost use Rattle.tinyjson.specs.private.Steps.{Finds, FindsText, Grows};

use super::error::{JsonParseError, JsonParseErrorKind};
use super::events::Events;
use super::nest::Nest;
use super::reader::Reader;
use std::alloc::AllocError;
use tinyjson_number::JsonNumber;
use tinyjson_tokens::Tokens;

/// Events that keep nothing.
#[derive(Drop)]
struct Nothing;

impl Events for Nothing {
    type Error = AllocError;

    ghost holds = { λ s b fs. ⊤ };

    ghost is = { λ s b t. ⊤ };

    #[inline(always)]
    fn open_array(&mut self) -> Result<(), AllocError> {
        Ok(())
    }

    #[inline(always)]
    fn close_array(&mut self) -> Result<(), AllocError> {
        Ok(())
    }

    #[inline(always)]
    fn open_object(&mut self) -> Result<(), AllocError> {
        Ok(())
    }

    #[inline(always)]
    fn close_object(&mut self) -> Result<(), AllocError> {
        Ok(())
    }

    #[inline(always)]
    fn key(&mut self, _key: &str) -> Result<(), AllocError> {
        Ok(())
    }

    #[inline(always)]
    fn string(&mut self, _value: &str) -> Result<(), AllocError> {
        Ok(())
    }

    #[inline(always)]
    fn number(&mut self, _value: JsonNumber) -> Result<(), AllocError> {
        Ok(())
    }

    #[inline(always)]
    fn literal(&mut self, _value: Option<bool>) -> Result<(), AllocError> {
        Ok(())
    }
}

impl<S: Tokens> Reader<S> {
    /// Reads a whole text without building a value. An error has the place that was reached. A literal
    /// alone takes no memory.
    pub(super) fn check(&mut self, limit: Option<usize>) -> Result<(), JsonParseError>
        ensures reads { FindsText S.sight limit self.old.tokens.source result
            self.new.tokens.source }
        ensures end { OnOk result (S.sight.shows self.new.tokens.source None) }
        ensures memory { IfErr result (λ e.
            e.kind ≡ OutOfMemory → Grows S.sight self.old.tokens.source) }
    {
        match self.check_value(limit) {
            Ok(()) => Ok(()),
            Err(kind) => {
                let (line, column) = self.tokens.position();
                Err(JsonParseError { kind, line, column })
            }
        }
    }

    /// Reads the value of a whole text, and the end after it.
    fn check_value(&mut self, limit: Option<usize>) -> Result<(), JsonParseErrorKind>
        ensures reads { Finds S.sight limit self.old.tokens.source (next [] awaited) result
            self.new.tokens.source }
        ensures end { OnOk result (S.sight.shows self.new.tokens.source None) }
        ensures memory { IfErr result (λ kind.
            kind ≡ OutOfMemory → Grows S.sight self.old.tokens.source) }
    {
        match self.tokens.skip_white() {
            Some(first @ ('n' | 't' | 'f')) => {
                self.tokens.literal(first)?;
                self.end()
            }
            Some(first) => {
                let mut nest = Nest::new(self.alloc, Nothing);
                self.build(limit, &mut nest, first)
            }
            None => Err(JsonParseErrorKind::UnexpectedEof),
        }
    }
}
