//! The nodes that segments select, one by one, and what filters ask.
ghost use Rattle.std.proofs.Props.{props};
ghost use Rattle.std.specs.Prelude.{◌≡◌, ◌++◌, reverse, OnOk, IfOk, IfErr};
ghost use Rattle.std.specs.Prelude.{option_and_then, option_map};
ghost use Rattle.tinyjson_document.specs.Known.{Tree_set};
ghost use Rattle.tinyjson_path.specs.Answers.{AreKnown, answer_of, found_view, value_at};
ghost use Rattle.tinyjson_path.specs.Nodes.{Takes, path_of, part_view, parts_view, children};
ghost use Rattle.tinyjson_view.specs.Views.{tree_of};
ghost use Rattle.tinyjson_path.specs.Queries.{selector_parts, selected_by};
ghost use Rattle.tinyjson_path.specs.Queries.{found_by, holds_of, kept, comparable_value};
ghost use Rattle.tinyjson_path.specs.Queries.{filter_parts, is_some_part};
ghost use Rattle.tinyjson_path.specs.Comparing.{compares, length_of, count_of, size_of, value_of};
ghost use Rattle.tinyjson_path.specs.Patterns.{judged, pattern_holds};
ghost use Rattle.tinyjson_path.specs.Seen.{operand_tree};
ghost use Rattle.tinyjson_path.specs.Strings.{strings_in, IsFromAny, Within};
ghost use Rattle.tinyjson_path.specs.Strings.{segments_strings, selectors_strings};
ghost use Rattle.tinyjson_path.specs.Strings.{selector_strings, expression_strings, comparable_strings};
ghost use Rattle.tinyjson_path.specs.Strings.{filter_strings};
ghost use Rattle.tinyjson_path.specs.Waiting.{Puts, waits_view, waits_at, waits_left, waits_strings};

use crate::answers::{Answer, Found, Question, Reply, keep, reply_to};
use crate::children::{children, push_children, push_indexed, push_named, push_slice};
use crate::node::Located;
use crate::operand::{
    self, Operand, compare, length_of, literal_value, part, release, singular_value, whole,
    whole_if,
};
use crate::patterns::{FindError, Patterns};
use crate::steady::{is_steady, is_test_steady};
use crate::waiting::{Waiting, first, push_containers, push_reversed, window};
use std::alloc::{AllocError, Global};
use tinyjson_path_query::{
    Comparable, ComparisonOperator, Expression, FilterQuery, FunctionExpression, Origin,
    PatternFunction, Segment, Selector,
};
use tinyjson_view::ValueView;

/// The state of an evaluation.
#[derive(Drop)]
pub(crate) struct Finder<'v> {
    pub(crate) alloc: Global,
    /// The value of `$`.
    pub(crate) root: ValueView<'v>,
    /// What filters asked of the root alone.
    pub(crate) answers: Vec<Answer<'v>>,
    pub(crate) patterns: Patterns,
    ghost known: { AreKnown (tree_of root) answers.items } by { Prim.hlevel (props, Tree_set) },
}

impl<'v> Finder<'v> {
    /// The next node of those that the segments select from the nodes that wait, which are on a stack, the next one
    /// last: a node goes through all segments before the next one does. A scalar waits for no descendants.
    ///
    /// What this call has gone through selected nothing. So a node that repeats another one, and came onto the stack
    /// in this call, as those above the lowest height of the stack did, is left out: the other one selected nothing.
    #[cycle(selecting)]
    pub(crate) fn next_found(
        &mut self,
        segments: &'v [Segment],
        waiting: &mut Vec<Waiting<'v>>,
    ) -> Result<Option<Located<'v>>, FindError>
        ensures root { self.new.root ≡ self.old.root }
        ensures next { IfOk result (Takes
            (waits_left segments.now (tree_of self.old.root) (waits_view waiting.old.items))
            (waits_left segments.now (tree_of self.old.root) (waits_view waiting.new.items))) }
        ensures within { OnOk result (Within (waits_strings (waits_view waiting.new.items))
            (waits_strings (waits_view waiting.old.items))) }
        ensures err { IfErr result (IsFromAny (segments_strings segments.now)
            (tree_of self.old.root) (waits_strings (waits_view waiting.old.items))) }
    {
        let mut low = waiting.len();
        while let Some(
            Waiting {
                node,
                segment,
                repeats,
            },
        ) = waiting.pop()
        {
            if repeats && waiting.len() >= low {
                continue;
            }
            low = low.min(waiting.len());
            if segment >= segments.len() {
                return Ok(Some(node));
            }
            match &segments[segment] {
                Segment::Child(selectors) => {
                    self.push_selected(selectors.as_slice(), &node, segment + 1, waiting)?;
                }
                Segment::Descendant(selectors) => {
                    push_containers(self.alloc, &node, segment, waiting)?;
                    self.push_selected(selectors.as_slice(), &node, segment + 1, waiting)?;
                }
            }
        }
        Ok(None)
    }

    /// Puts what the selectors select from the node behind the nodes that wait.
    #[cycle(selecting)]
    fn push_selected(
        &mut self,
        selectors: &'v [Selector],
        node: &Located<'v>,
        segment: usize,
        waiting: &mut Vec<Waiting<'v>>,
    ) -> Result<(), FindError>
        ensures root { self.new.root ≡ self.old.root }
        ensures ok { OnOk result (waits_view waiting.new.items ≡ waits_view waiting.old.items
            ++ reverse (waits_at segment
            (selected_by selectors.now (tree_of self.old.root) (part_view node.now)))) }
        ensures marked { OnOk result (Puts waiting.old.items waiting.new.items) }
        ensures err { IfErr result (IsFromAny (selectors_strings selectors.now)
            (tree_of self.old.root) (strings_in (tree_of node.now.value))) }
    {
        let mut selected = Vec::new(self.alloc);
        self.select_each(selectors, node, &mut selected)?;
        Ok(push_reversed(selected, segment, window(selectors), waiting)?)
    }

    #[cycle(selecting)]
    fn select_each(
        &mut self,
        selectors: &'v [Selector],
        node: &Located<'v>,
        selected: &mut Vec<Located<'v>>,
    ) -> Result<(), FindError>
        ensures root { self.new.root ≡ self.old.root }
        ensures ok { OnOk result (parts_view selected.new.items ≡ parts_view selected.old.items
            ++ selected_by selectors.now (tree_of self.old.root) (part_view node.now)) }
        ensures err { IfErr result (IsFromAny (selectors_strings selectors.now)
            (tree_of self.old.root) (strings_in (tree_of node.now.value))) }
    {
        for selector in selectors {
            self.select(selector, node, selected)?;
        }
        Ok(())
    }

    #[cycle(selecting)]
    fn select(
        &mut self,
        selector: &'v Selector,
        node: &Located<'v>,
        selected: &mut Vec<Located<'v>>,
    ) -> Result<(), FindError>
        ensures root { self.new.root ≡ self.old.root }
        ensures ok { OnOk result (parts_view selected.new.items ≡ parts_view selected.old.items
            ++ selector_parts selector.now (tree_of self.old.root) (part_view node.now)) }
        ensures err { IfErr result (IsFromAny (selector_strings selector.now)
            (tree_of self.old.root) (strings_in (tree_of node.now.value))) }
    {
        match selector {
            Selector::Name(name) => push_named(self.alloc, node, name.as_str(), selected)?,
            Selector::Wildcard => push_children(self.alloc, node, selected)?,
            Selector::Index(index) => push_indexed(self.alloc, node, *index, selected)?,
            Selector::Slice { start, end, step } => {
                push_slice(self.alloc, node, *start, *end, *step, selected)?
            }
            Selector::Filter(expression) => self.push_kept(expression, node, selected)?,
        }
        Ok(())
    }

    /// The children of which the expression holds (RFC 9535, 2.3.5).
    #[cycle(selecting)]
    fn push_kept(
        &mut self,
        expression: &'v Expression,
        node: &Located<'v>,
        selected: &mut Vec<Located<'v>>,
    ) -> Result<(), FindError>
        ensures root { self.new.root ≡ self.old.root }
        ensures ok { OnOk result (parts_view selected.new.items ≡ parts_view selected.old.items
            ++ kept (holds_of expression.now (tree_of self.old.root))
            (children (path_of node.now) (tree_of node.now.value))) }
        ensures err { IfErr result (IsFromAny (expression_strings expression.now)
            (tree_of self.old.root) (strings_in (tree_of node.now.value))) }
    {
        let children = children(self.alloc, node)?;
        for child in children.as_slice() {
            if self.holds(expression, &child.value)? {
                selected.push(child.try_clone()?)?;
            }
        }
        Ok(())
    }

    /// Whether the expression holds of the value.
    #[cycle(selecting)]
    fn holds(&mut self, expression: &'v Expression, here: &ValueView<'v>) -> Result<bool, FindError>
        ensures root { self.new.root ≡ self.old.root }
        ensures ok { IfOk result (λ b. b
            ≡ holds_of expression.now (tree_of self.old.root) (tree_of here.now)) }
        ensures err { IfErr result (IsFromAny (expression_strings expression.now)
            (tree_of self.old.root) (strings_in (tree_of here.now))) }
    {
        if is_test_steady(expression) {
            return self.holds_once(expression);
        }
        self.holds_at(expression, here)
    }

    /// Whether the expression holds of the root, which is found once, and kept.
    #[cycle(selecting)]
    #[inline(never)]
    fn holds_once(&mut self, expression: &'v Expression) -> Result<bool, FindError>
        ensures root { self.new.root ≡ self.old.root }
        ensures ok { IfOk result (λ b. b
            ≡ holds_of expression.now (tree_of self.old.root) (tree_of self.old.root)) }
        ensures err { IfErr result (IsFromAny (expression_strings expression.now)
            (tree_of self.old.root) (strings_in (tree_of self.old.root))) }
    {
        let question = Question::Test(expression);
        if let Some(Reply::Holds(holds)) = reply_to(self.answers.as_slice(), question) {
            return Ok(holds);
        }
        let root = self.root;
        let holds = self.holds_at(expression, &root)?;
        keep(&mut self.answers, question, Reply::Holds(holds))?;
        Ok(holds)
    }

    /// The same as `holds`, whatever is kept of the expression. What only one kind of expression needs is in functions
    /// of its own, for the stack that a filter in a filter takes.
    #[cycle(selecting)]
    fn holds_at(
        &mut self,
        expression: &'v Expression,
        here: &ValueView<'v>,
    ) -> Result<bool, FindError>
        ensures root { self.new.root ≡ self.old.root }
        ensures ok { IfOk result (λ b. b
            ≡ holds_of expression.now (tree_of self.old.root) (tree_of here.now)) }
        ensures err { IfErr result (IsFromAny (expression_strings expression.now)
            (tree_of self.old.root) (strings_in (tree_of here.now))) }
    {
        match expression {
            Expression::Or(expressions) => {
                for choice in expressions {
                    if self.holds(choice, here)? {
                        return Ok(true);
                    }
                }
                Ok(false)
            }
            Expression::And(expressions) => {
                for condition in expressions {
                    if !self.holds(condition, here)? {
                        return Ok(false);
                    }
                }
                Ok(true)
            }
            Expression::Not(expression) => Ok(!self.holds(expression, here)?),
            Expression::Comparison(operator, left, right) => {
                let left = self.compared(left, here)?;
                self.compares(*operator, left, right, here)
            }
            Expression::Test(query) => self.is_found(query, here),
            Expression::Pattern(function, value, pattern) => {
                let value = self.compared(value, here)?;
                self.matches(*function, value, pattern, here)
            }
        }
    }

    /// Whether the comparison of the operand with the other holds of the value. The operand is consumed.
    #[cycle(selecting)]
    #[inline(never)]
    fn compares(
        &mut self,
        operator: ComparisonOperator,
        left: Option<Operand<'v>>,
        right: &'v Comparable,
        here: &ValueView<'v>,
    ) -> Result<bool, FindError>
        ensures root { self.new.root ≡ self.old.root }
        ensures ok { IfOk result (λ b. b ≡ compares operator (option_map operand_tree left.entry)
            (comparable_value right.now (tree_of self.old.root) (tree_of here.now))) }
        ensures err { IfErr result (IsFromAny (comparable_strings right.now)
            (tree_of self.old.root) (strings_in (tree_of here.now))) }
    {
        match self.compared(right, here) {
            Ok(right) => Ok(compare(operator, left, right)),
            Err(error) => {
                release(left);
                Err(error)
            }
        }
    }

    /// Whether the function holds of the operand and the pattern. The operand is consumed.
    #[cycle(selecting)]
    #[inline(never)]
    fn matches(
        &mut self,
        function: PatternFunction,
        value: Option<Operand<'v>>,
        pattern: &'v Comparable,
        here: &ValueView<'v>,
    ) -> Result<bool, FindError>
        ensures root { self.new.root ≡ self.old.root }
        ensures ok { IfOk result (λ b. b
            ≡ pattern_holds judged function (option_map operand_tree value.entry)
            (comparable_value pattern.now (tree_of self.old.root) (tree_of here.now))) }
        ensures err { IfErr result (IsFromAny (comparable_strings pattern.now)
            (tree_of self.old.root) (strings_in (tree_of here.now))) }
    {
        let stays = matches!(pattern, Comparable::Literal(_));
        match self.compared(pattern, here) {
            Ok(pattern) => Ok(self.patterns.test(function, stays, value, pattern)?),
            Err(error) => {
                release(value);
                Err(error)
            }
        }
    }

    /// The value that is compared, or nothing.
    #[cycle(selecting)]
    fn compared(
        &mut self,
        comparable: &'v Comparable,
        here: &ValueView<'v>,
    ) -> Result<Option<Operand<'v>>, FindError>
        ensures root { self.new.root ≡ self.old.root }
        ensures ok { IfOk result (λ o. option_map operand_tree o
            ≡ comparable_value comparable.now (tree_of self.old.root) (tree_of here.now)) }
        ensures err { IfErr result (IsFromAny (comparable_strings comparable.now)
            (tree_of self.old.root) (strings_in (tree_of here.now))) }
    {
        match comparable {
            Comparable::Literal(literal) => literal_value(self.alloc, literal),
            Comparable::SingularQuery(query) => Ok(singular_value(query, &self.root, here)),
            Comparable::Function(function) => match function {
                FunctionExpression::Length(argument) => self.length(argument, here),
                FunctionExpression::Count(query) => self.count(query, here),
                FunctionExpression::Value(query) => self.only_value(query, here),
            },
        }
    }

    #[cycle(selecting)]
    #[inline(never)]
    fn length(
        &mut self,
        argument: &'v Comparable,
        here: &ValueView<'v>,
    ) -> Result<Option<Operand<'v>>, FindError>
        ensures root { self.new.root ≡ self.old.root }
        ensures ok { IfOk result (λ o. option_map operand_tree o ≡ length_of
            (comparable_value argument.now (tree_of self.old.root) (tree_of here.now))) }
        ensures err { IfErr result (IsFromAny (comparable_strings argument.now)
            (tree_of self.old.root) (strings_in (tree_of here.now))) }
    {
        if is_steady(argument) {
            return self.length_once(argument);
        }
        Ok(operand::length(self.alloc, self.compared(argument, here)?)?)
    }

    /// The length of the value at the root, which is found once, and kept.
    #[cycle(selecting)]
    #[inline(never)]
    fn length_once(&mut self, argument: &'v Comparable) -> Result<Option<Operand<'v>>, FindError>
        ensures root { self.new.root ≡ self.old.root }
        ensures ok { IfOk result (λ o. option_map operand_tree o
            ≡ length_of (value_at (tree_of self.old.root) argument.now)) }
        ensures err { IfErr result (IsFromAny (comparable_strings argument.now)
            (tree_of self.old.root) (strings_in (tree_of self.old.root))) }
    {
        let size = self.size_once(argument)?;
        Ok(whole_if(self.alloc, size)?)
    }

    #[cycle(selecting)]
    fn size_once(&mut self, argument: &'v Comparable) -> Result<Option<usize>, FindError>
        ensures root { self.new.root ≡ self.old.root }
        ensures ok { IfOk result (λ n. n
            ≡ option_and_then size_of (value_at (tree_of self.old.root) argument.now)) }
        ensures err { IfErr result (IsFromAny (comparable_strings argument.now)
            (tree_of self.old.root) (strings_in (tree_of self.old.root))) }
    {
        let question = Question::Length(argument);
        if let Some(Reply::Size(size)) = reply_to(self.answers.as_slice(), question) {
            return Ok(size);
        }
        let root = self.root;
        let size = length_of(self.compared(argument, &root)?);
        keep(&mut self.answers, question, Reply::Size(size))?;
        Ok(size)
    }

    #[cycle(selecting)]
    #[inline(never)]
    fn count(
        &mut self,
        query: &'v FilterQuery,
        here: &ValueView<'v>,
    ) -> Result<Option<Operand<'v>>, FindError>
        ensures root { self.new.root ≡ self.old.root }
        ensures ok { IfOk result (λ o. option_map operand_tree o
            ≡ count_of (filter_parts query.now (tree_of self.old.root) (tree_of here.now))) }
        ensures err { IfErr result (IsFromAny (filter_strings query.now)
            (tree_of self.old.root) (strings_in (tree_of here.now))) }
    {
        let found = self.found(query, here)?;
        Ok(whole(self.alloc, found.count)?)
    }

    #[cycle(selecting)]
    #[inline(never)]
    fn only_value(
        &mut self,
        query: &'v FilterQuery,
        here: &ValueView<'v>,
    ) -> Result<Option<Operand<'v>>, FindError>
        ensures root { self.new.root ≡ self.old.root }
        ensures ok { IfOk result (λ o. option_map operand_tree o
            ≡ value_of (filter_parts query.now (tree_of self.old.root) (tree_of here.now))) }
        ensures err { IfErr result (IsFromAny (filter_strings query.now)
            (tree_of self.old.root) (strings_in (tree_of here.now))) }
    {
        let found = self.found(query, here)?;
        Ok(part(found.only))
    }

    /// Whether the query selects a node. For one from the root that is found once, and kept.
    #[cycle(selecting)]
    #[inline(never)]
    fn is_found(&mut self, query: &'v FilterQuery, here: &ValueView<'v>) -> Result<bool, FindError>
        ensures root { self.new.root ≡ self.old.root }
        ensures ok { IfOk result (λ b. b ≡ is_some_part
            (filter_parts query.now (tree_of self.old.root) (tree_of here.now))) }
        ensures err { IfErr result (IsFromAny (filter_strings query.now)
            (tree_of self.old.root) (strings_in (tree_of here.now))) }
    {
        match query.origin {
            Origin::Root => self.is_any_once(query.segments.as_slice()),
            Origin::CurrentNode => self.is_any_from(query.segments.as_slice(), *here),
        }
    }

    #[cycle(selecting)]
    fn is_any_once(&mut self, segments: &'v [Segment]) -> Result<bool, FindError>
        ensures root { self.new.root ≡ self.old.root }
        ensures ok { IfOk result (λ b. b ≡ is_some_part
            (found_by segments.now (tree_of self.old.root) (tree_of self.old.root))) }
        ensures err { IfErr result (IsFromAny (segments_strings segments.now)
            (tree_of self.old.root) (strings_in (tree_of self.old.root))) }
    {
        let question = Question::Any(segments);
        if let Some(Reply::Holds(is_any)) = reply_to(self.answers.as_slice(), question) {
            return Ok(is_any);
        }
        let root = self.root;
        let is_any = self.is_any_from(segments, root)?;
        keep(&mut self.answers, question, Reply::Holds(is_any))?;
        Ok(is_any)
    }

    /// Whether the segments select a node from the value. None is looked for behind the first one.
    #[cycle(selecting)]
    fn is_any_from(
        &mut self,
        segments: &'v [Segment],
        value: ValueView<'v>,
    ) -> Result<bool, FindError>
        ensures root { self.new.root ≡ self.old.root }
        ensures ok { IfOk result (λ b. b ≡ is_some_part
            (found_by segments.now (tree_of self.old.root) (tree_of value.entry))) }
        ensures err { IfErr result (IsFromAny (segments_strings segments.now)
            (tree_of self.old.root) (strings_in (tree_of value.entry))) }
    {
        let mut waiting = first(self.alloc, value)?;
        let next = self.next_found(segments, &mut waiting)?;
        Ok(next.is_some())
    }

    /// What the query selects. For one from the root that is found once, and kept.
    #[cycle(selecting)]
    fn found(
        &mut self,
        query: &'v FilterQuery,
        here: &ValueView<'v>,
    ) -> Result<Found<'v>, FindError>
        ensures root { self.new.root ≡ self.old.root }
        ensures ok { IfOk result (λ f. found_view f
            ≡ answer_of (filter_parts query.now (tree_of self.old.root) (tree_of here.now))) }
        ensures err { IfErr result (IsFromAny (filter_strings query.now)
            (tree_of self.old.root) (strings_in (tree_of here.now))) }
    {
        match query.origin {
            Origin::Root => self.found_once(query.segments.as_slice()),
            Origin::CurrentNode => self.found_from(query.segments.as_slice(), *here),
        }
    }

    #[cycle(selecting)]
    fn found_once(&mut self, segments: &'v [Segment]) -> Result<Found<'v>, FindError>
        ensures root { self.new.root ≡ self.old.root }
        ensures ok { IfOk result (λ f. found_view f ≡ answer_of
            (found_by segments.now (tree_of self.old.root) (tree_of self.old.root))) }
        ensures err { IfErr result (IsFromAny (segments_strings segments.now)
            (tree_of self.old.root) (strings_in (tree_of self.old.root))) }
    {
        let question = Question::Query(segments);
        if let Some(Reply::Found(found)) = reply_to(self.answers.as_slice(), question) {
            return Ok(found);
        }
        let root = self.root;
        let found = self.found_from(segments, root)?;
        keep(&mut self.answers, question, Reply::Found(found))?;
        Ok(found)
    }

    #[cycle(selecting)]
    fn found_from(
        &mut self,
        segments: &'v [Segment],
        value: ValueView<'v>,
    ) -> Result<Found<'v>, FindError>
        ensures root { self.new.root ≡ self.old.root }
        ensures ok { IfOk result (λ f. found_view f ≡ answer_of
            (found_by segments.now (tree_of self.old.root) (tree_of value.entry))) }
        ensures err { IfErr result (IsFromAny (segments_strings segments.now)
            (tree_of self.old.root) (strings_in (tree_of value.entry))) }
    {
        let mut waiting = first(self.alloc, value)?;
        let mut found = Found {
            count: 0,
            only: None,
        };
        while let Some(node) = self.next_found(segments, &mut waiting)? {
            found = found.with(node.value)?;
        }
        Ok(found)
    }
}
