//! Laws of the definitions, for the layers above.
ghost use Rattle.std.specs.Prelude.{ℕ, List, ◌+◌, ◌≤◌, length};
ghost use Rattle.rd_base.specs.declared.limits.TheConstants.{TEXT_CHARACTERS};
ghost use Rattle.rd_text.specs.Texts.{TextValue, IsText, IsAccessible, inserted, deleted, narrowed, widened};
ghost use Rattle.rd_text.specs.Answers.{IsAccessibleRange, IsRangeOfAll};

/// Every edit that is in range leaves a text with an accessible range in it. The call does nothing.
pub fn edits_keep_texts()
    ensures inserted { (t : TextValue) (pos : ℕ) (new : List ℕ) → IsText t → IsAccessible t pos → length t.text + length new ≤ TEXT_CHARACTERS → IsText (inserted t pos new) }
    ensures deleted { (t : TextValue) (from to : ℕ) → IsText t → IsAccessibleRange t from to → IsText (deleted t from to) }
    ensures narrowed { (t : TextValue) (from to : ℕ) → IsText t → IsRangeOfAll t from to → IsText (narrowed t from to) }
    ensures widened { (t : TextValue) → IsText t → IsText (widened t) }
{}
