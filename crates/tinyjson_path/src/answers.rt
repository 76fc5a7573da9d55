//! What filters ask that is the same for each node, and what is kept of it.
ghost use Rattle.std.specs.Prelude.{◌≡◌, ◌≤◌, ◌++◌, ◌∷◌, [], IfOk, IfSome, List, length, true};
ghost use Rattle.tinyjson.specs.Tree.{Tree};
ghost use Rattle.tinyjson_path.specs.Answers.{AreKnown, answer_of, due, found_view, reply_view};
ghost use Rattle.tinyjson_path.specs.Nodes.{Part};
ghost use Rattle.tinyjson_view.specs.Views.{tree_of};

use crate::key::key_of;
use crate::same::{are_same, is_comparable_same, is_expression_same};
use std::alloc::AllocError;
use tinyjson_path_query::{Comparable, Expression, Segment};
use tinyjson_view::ValueView;

/// What is asked of the root alone.
#[derive(Clone, Copy)]
pub(crate) enum Question<'v> {
    /// What the segments select from the root.
    Query(&'v [Segment]),
    /// Whether they select something from the root.
    Any(&'v [Segment]),
    /// Whether the expression holds of the root.
    Test(&'v Expression),
    /// How long the value is.
    Length(&'v Comparable),
}

/// What filters ask of nodes: how many there are, and the value of the only one.
#[derive(Clone, Copy)]
pub(crate) struct Found<'v> {
    pub(crate) count: usize,
    pub(crate) only: Option<ValueView<'v>>,
}

#[derive(Clone, Copy)]
pub(crate) enum Reply<'v> {
    Found(Found<'v>),
    Holds(bool),
    Size(Option<usize>),
}

/// A question that was asked, with its key.
#[derive(Clone, Copy)]
pub(crate) struct Answer<'v> {
    key: u64,
    question: Question<'v>,
    reply: Reply<'v>,
}

impl<'v> Found<'v> {
    /// The same with one node more, which has this value. Memory is out if they are too many to be counted.
    pub(crate) fn with(self, value: ValueView<'v>) -> Result<Found<'v>, AllocError>
        ensures { (ps : List Part) (p : Part) → found_view self.entry ≡ answer_of ps
            → tree_of value.entry ≡ p.tree
            → IfOk result (λ f. found_view f ≡ answer_of (ps ++ p ∷ [])) }
    {
        let Some(count) = self.count.checked_add(1) else {
            return Err(AllocError);
        };
        if self.count > 0 {
            return Ok(Found { count, only: None });
        }
        Ok(Found {
            count,
            only: Some(value),
        })
    }
}

/// Whether the questions are the same. Their parts are compared, since places in memory cannot be.
fn is_question_same(left: Question, right: Question) -> bool
    ensures { (root : Tree) → result ≡ true → due root left.entry ≡ due root right.entry }
{
    match (left, right) {
        (Question::Query(left), Question::Query(right)) => are_same(left, right),
        (Question::Any(left), Question::Any(right)) => are_same(left, right),
        (Question::Test(left), Question::Test(right)) => is_expression_same(left, right),
        (Question::Length(left), Question::Length(right)) => is_comparable_same(left, right),
        _ => false,
    }
}

/// The index of the key among the answers, which are in the order of their keys, or where it is to be inserted.
fn place(answers: &[Answer], key: u64) -> usize
    ensures { result ≤ length answers.now }
{
    answers.partition_point(|answer| answer.key < key)
}

/// The answer to the question, if it is kept.
pub(crate) fn reply_to<'v>(answers: &[Answer<'v>], question: Question) -> Option<Reply<'v>>
    ensures { (root : Tree) → AreKnown root answers.now
        → IfSome result (λ r. reply_view r ≡ due root question.entry) }
{
    let key = key_of(question);
    let place = place(answers, key);
    if place < answers.len() {
        let answer = answers[place];
        if answer.key == key && is_question_same(answer.question, question) {
            return Some(answer.reply);
        }
    }
    None
}

/// Keeps the answer to a question that was not kept. Of two questions with one key the first is kept.
pub(crate) fn keep<'v>(
    answers: &mut Vec<Answer<'v>>,
    question: Question<'v>,
    reply: Reply<'v>,
) -> Result<(), AllocError>
    ensures { (root : Tree) → AreKnown root answers.old.items
        → reply_view reply.entry ≡ due root question.entry → AreKnown root answers.new.items }
{
    let key = key_of(question);
    let place = place(answers.as_slice(), key);
    if place < answers.len() && answers[place].key == key {
        return Ok(());
    }
    answers.insert(
        place,
        Answer {
            key,
            question,
            reply,
        },
    )?;
    Ok(())
}
