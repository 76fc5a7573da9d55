//! Searching a text for the outermost branches of a schema's pattern.
ghost use Rattle.std.specs.Prelude.{◌≡◌, ◌↔◌, map, IsTrue, IfSome};
ghost use Rattle.std.specs.Str.{chars};
ghost use Rattle.text_regexp.specs.Building.{choice};
ghost use Rattle.text_regexp.specs.Forms.{Matches};
ghost use Rattle.text_regexp.specs.Work.{Spends};
ghost use Rattle.text_iregexp.specs.PatternTexts.{look_text, case_text, AllMatch};

use crate::cases::{Case, Look};
use text_regexp::Work;

impl Look {
    /// Whether it holds at the beginning of the text; `None` if that takes more work.
    fn holds(&mut self, text: &str, work: &mut Work) -> Option<bool>
        ensures same { look_text self.new ≡ look_text self.old }
        ensures holds { IfSome result
            (λ b. IsTrue b ↔ Matches (look_text self.old) (chars text.now)) }
        ensures work { Spends work.old result work.new }
    {
        let found = self.root.matches_within(text, work)?;
        if self.negated {
            return Some(!found);
        }
        Some(found)
    }
}

impl Case {
    /// Whether its look-aheads hold, and it matches a part of the text; `None` if that takes more work.
    fn is_found_in(&mut self, text: &str, work: &mut Work) -> Option<bool>
        ensures same { case_text self.new ≡ case_text self.old }
        ensures found { IfSome result
            (λ b. IsTrue b ↔ Matches (case_text self.old) (chars text.now)) }
        ensures work { Spends work.old result work.new }
    {
        let hold = all_hold(self.looks.as_mut_slice(), text, work)?;
        if !hold {
            return Some(false);
        }
        let found = self.root.matches_within(text, work)?;
        Some(found)
    }
}

/// Whether all of them hold at the beginning of the text; `None` if that takes more work.
fn all_hold(looks: &mut [Look], text: &str, work: &mut Work) -> Option<bool>
    ensures same { map look_text looks.new ≡ map look_text looks.old }
    ensures hold { IfSome result
        (λ b. IsTrue b ↔ AllMatch (map look_text looks.old) (chars text.now)) }
    ensures work { Spends work.old result work.new }
{
    for look in looks.iter_mut() {
        let holds = look.holds(text, work)?;
        if !holds {
            return Some(false);
        }
    }
    Some(true)
}

/// Whether one of the branches is found in the text; `None` if that takes more work.
pub(crate) fn any_found(cases: &mut [Case], text: &str, work: &mut Work) -> Option<bool>
    ensures same { map case_text cases.new ≡ map case_text cases.old }
    ensures found { IfSome result
        (λ b. IsTrue b ↔ Matches (choice (map case_text cases.old)) (chars text.now)) }
    ensures work { Spends work.old result work.new }
{
    for case in cases.iter_mut() {
        let found = case.is_found_in(text, work)?;
        if found {
            return Some(true);
        }
    }
    Some(false)
}
