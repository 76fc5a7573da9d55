//! Builds regular expressions from smaller ones.
ghost use Rattle.std.specs.Prelude.{◌≡◌, ◌≤◌, ◌<◌, List, IfOk, vec_len};
ghost use Rattle.text_regexp.specs.Forms.{Form, empty, class, assertion, concat, alternation, repetition};
ghost use Rattle.text_regexp.specs.Forms.{AtMost};
ghost use Rattle.text_regexp.specs.Building.{Same, Means, AllMean, form_of, sequence, choice};
ghost use Rattle.text_regexp.specs.Building.{TakesSequence, TakesChoice};

use crate::assertion::Assertion;
use crate::class::Class;
use crate::expression::Expression;
use crate::marked::Node;
use std::alloc::{AllocError, Global};

impl Expression {
    /// The regular expression of the empty text alone.
    ///
    /// ```
    /// let mut nothing = Expression::empty();
    /// assert!(rt; nothing.matches(""));
    /// assert!(rt; !nothing.matches("a"));
    /// ```
    pub fn empty() -> Expression
        ensures { Means result empty }
    {
        Expression {
            root: Node::Empty,
            plain: true,
        }
    }

    /// One character of a class.
    ///
    /// ```
    /// let mut digit = Expression::one_of(Class::single(alloc, Item::Range('0', '9'))?);
    /// assert!(rt; digit.matches("7"));
    /// ```
    pub fn one_of(members: Class) -> Expression
        ensures { Means result (class members.negated members.items.items) }
    {
        Expression {
            root: Node::Class {
                class: members,
                mark: false,
            },
            plain: true,
        }
    }

    /// An assertion about the place in the text, which takes no character.
    ///
    /// ```
    /// let end = Expression::assertion(Assertion::End);
    /// let digit = Expression::one_of(Class::single(alloc, Item::Range('0', '9'))?);
    /// let mut last = Expression::concat(alloc, digit, end)?;
    /// assert!(rt; last.searches("in 7"));
    /// assert!(rt; !last.searches("in 7 days"));
    /// ```
    pub fn assertion(kind: Assertion) -> Expression
        ensures { Means result (assertion kind) }
    {
        Expression {
            root: Node::Assert {
                assertion: kind,
                holds: kind.holds(None, None),
            },
            plain: false,
        }
    }

    /// A copy of the regular expression.
    fn copy(&self, alloc: Global) -> Result<Expression, AllocError>
        ensures { IfOk result (λ n. form_of n ≡ form_of self.now) }
    {
        Ok(Expression {
            root: self.root.copy(alloc)?,
            plain: self.plain,
        })
    }

    /// A sequence of two.
    ///
    /// ```
    /// let a = Expression::one_of(Class::single(alloc, Item::Range('a', 'a'))?);
    /// let b = Expression::one_of(Class::single(alloc, Item::Range('b', 'b'))?);
    /// let mut both = Expression::concat(alloc, a, b)?;
    /// assert!(rt; both.matches("ab"));
    /// ```
    pub fn concat(
        alloc: Global,
        left: Expression,
        right: Expression,
    ) -> Result<Expression, AllocError>
        ensures { IfOk result (λ n. (f g : Form) → Means left f → Means right g
            → Means n (concat f g)) }
    {
        if left.root.is_empty() {
            return Ok(right);
        }
        if right.root.is_empty() {
            return Ok(left);
        }
        let left_empty = left.root.skips();
        let right_empty = right.root.skips();
        let plain = left.plain & right.plain;
        Ok(Expression {
            root: Node::Concat {
                left: Box::new(alloc, left.root)?,
                right: Box::new(alloc, right.root)?,
                left_empty,
                right_empty,
                left_ends: false,
                left_marked: false,
                right_marked: false,
            },
            plain,
        })
    }

    /// A choice between two.
    fn alternation(
        alloc: Global,
        left: Expression,
        right: Expression,
    ) -> Result<Expression, AllocError>
        ensures { IfOk result (λ n. (f g : Form) → Means left f → Means right g
            → Means n (alternation f g)) }
    {
        let plain = left.plain & right.plain;
        Ok(Expression {
            root: Node::Alternation {
                left: Box::new(alloc, left.root)?,
                right: Box::new(alloc, right.root)?,
                left_marked: false,
                right_marked: false,
            },
            plain,
        })
    }

    /// Any number of repetitions.
    ///
    /// ```
    /// let a = Expression::one_of(Class::single(alloc, Item::Range('a', 'a'))?);
    /// let mut many = Expression::star(alloc, a)?;
    /// assert!(rt; many.matches("aaa"));
    /// ```
    pub fn star(alloc: Global, body: Expression) -> Result<Expression, AllocError>
        ensures { IfOk result (λ n. (f : Form) → Means body f → Means n (repetition f 0 None)) }
    {
        Ok(Expression {
            root: Node::Star {
                body: Box::new(alloc, body.root)?,
                body_ends: false,
            },
            plain: body.plain,
        })
    }

    /// Up to `most` characters of a class.
    fn up_to(members: Class, most: usize) -> Expression
        ensures { (f : Form) → Same (class members.negated members.items.items) f
            → Means result (repetition f 0 (Some most)) }
    {
        Expression {
            root: Node::UpTo {
                class: members,
                most,
                left: None,
            },
            plain: true,
        }
    }

    /// The body once, or the empty text.
    fn optional(alloc: Global, body: Expression) -> Result<Expression, AllocError>
        ensures { IfOk result (λ n. (f : Form) → Means body f
            → Means n (repetition f 0 (Some 1))) }
    {
        Expression::alternation(alloc, Expression::empty(), body)
    }

    /// The sequence of all parts.
    ///
    /// ```
    /// let mut parts = Vec::new(alloc);
    /// parts.push(Expression::one_of(Class::single(alloc, Item::Range('a', 'a'))?))?;
    /// parts.push(Expression::one_of(Class::single(alloc, Item::Range('b', 'b'))?))?;
    /// let mut all = Expression::sequence_of(alloc, parts)?;
    /// assert!(rt; all.matches("ab"));
    /// ```
    pub fn sequence_of(alloc: Global, mut parts: Vec<Expression>) -> Result<Expression, AllocError>
        ensures { IfOk result (λ n. (fs : List Form) → AllMean parts.items fs
            → Means n (sequence fs)) }
    {
        let count = parts.len();
        take_sequence(alloc, &mut parts, count)
    }

    /// A choice among all branches, of which there has to be one.
    ///
    /// ```
    /// let mut branches = Vec::new(alloc);
    /// branches.push(Expression::one_of(Class::single(alloc, Item::Range('a', 'a'))?))?;
    /// branches.push(Expression::one_of(Class::single(alloc, Item::Range('b', 'b'))?))?;
    /// let mut any = Expression::choice_of(alloc, branches)?;
    /// assert!(rt; any.matches("b"));
    /// ```
    pub fn choice_of(alloc: Global, mut branches: Vec<Expression>) -> Result<Expression, AllocError>
        requires { 0 < vec_len branches }
        ensures { IfOk result (λ n. (fs : List Form) → AllMean branches.items fs
            → Means n (choice fs)) }
    {
        let count = branches.len();
        take_choice(alloc, &mut branches, count)
    }

    /// At least `least` and at most `most` repetitions, or with no `most` any number of them from
    /// `least` on. They are written out in the tree.
    ///
    /// ```
    /// let a = Expression::one_of(Class::single(alloc, Item::Range('a', 'a'))?);
    /// let mut few = a.repeat(alloc, 1, Some(2))?;
    /// assert!(rt; few.matches("aa"));
    /// assert!(rt; !few.matches("aaa"));
    /// ```
    pub fn repeat(
        &self,
        alloc: Global,
        least: usize,
        most: Option<usize>,
    ) -> Result<Expression, AllocError>
        requires { AtMost least most }
        ensures { IfOk result (λ n. (f : Form) → Means self.now f
            → Means n (repetition f least most)) }
    {
        let mut parts = Vec::new(alloc);
        for _i in 0..least {
            parts.push(self.copy(alloc)?)?;
        }
        let Some(most) = most else {
            parts.push(Expression::star(alloc, self.copy(alloc)?)?)?;
            return Expression::sequence_of(alloc, parts);
        };
        if let Node::Class { class, .. } = &self.root {
            parts.push(Expression::up_to(class.copy(alloc)?, most - least))?;
            return Expression::sequence_of(alloc, parts);
        }
        for _k in 0..most - least {
            parts.push(Expression::optional(alloc, self.copy(alloc)?)?)?;
        }
        Expression::sequence_of(alloc, parts)
    }
}

/// Removes the last `count` parts, and returns their sequence. Its depth is the logarithm of the
/// count.
fn take_sequence(
    alloc: Global,
    parts: &mut Vec<Expression>,
    count: usize,
) -> Result<Expression, AllocError>
    requires { count ≤ vec_len parts.old }
    ensures { IfOk result (λ n. TakesSequence parts.old.items count parts.new.items n) }
{
    if count == 0 {
        return Ok(Expression::empty());
    }
    if count == 1 {
        return Ok(parts.pop().unwrap());
    }
    let half = count / 2;
    let right = take_sequence(alloc, parts, half)?;
    let left = take_sequence(alloc, parts, count - half)?;
    Expression::concat(alloc, left, right)
}

/// Removes the last `count` branches, and returns a choice among them.
fn take_choice(
    alloc: Global,
    branches: &mut Vec<Expression>,
    count: usize,
) -> Result<Expression, AllocError>
    requires some { 0 < count }
    requires there { count ≤ vec_len branches.old }
    ensures { IfOk result (λ n. TakesChoice branches.old.items count branches.new.items n) }
{
    if count == 1 {
        return Ok(branches.pop().unwrap());
    }
    let half = count / 2;
    let right = take_choice(alloc, branches, half)?;
    let left = take_choice(alloc, branches, count - half)?;
    Expression::alternation(alloc, left, right)
}
