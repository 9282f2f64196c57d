//! Laws of the choice. Each call does nothing: its contract is the law.

ghost use Rattle.std.specs.Prelude.{ℕ, List};
ghost use Rattle.std.specs.List.Sorted.{IsPermutation};
ghost use Rattle.msg_select.specs.declared.selector.MessageSelector.{MessageSelector};
ghost use Rattle.msg_select.specs.Selection.{IsChosen, NoneHolds, IsOnlyChoice};

/// Where no two selectors of one rank have a key in common, there is one choice at most.
pub fn one_choice()
    ensures { (selectors : List MessageSelector) (key : ℕ) → IsOnlyChoice selectors key }
{}

/// A choice among selectors is one among the same selectors in any order, and so is that there is none.
pub fn any_order()
    ensures chosen { (a b : List MessageSelector) (key handler : ℕ) →
        IsPermutation a b → IsChosen b key handler → IsChosen a key handler }
    ensures none { (a b : List MessageSelector) (key : ℕ) →
        IsPermutation a b → NoneHolds b key → NoneHolds a key }
{}
