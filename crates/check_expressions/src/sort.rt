// What sorts are.

ghost use Rattle.std.specs.Prelude.{◌≡◌};
ghost use Rattle.capl_meaning.specs.ExpressionRules.{is_array, is_message_sort, is_timer_sort};

use capl_meaning::Sort;

/// Whether a sort is an array.
pub(crate) fn is_array(sort: Sort) -> bool
    ensures { result ≡ is_array sort }
{
    matches!(sort, Sort::Array(_))
}

/// Whether a sort is a message.
pub(crate) fn is_message(sort: Sort) -> bool
    ensures { result ≡ is_message_sort sort }
{
    matches!(sort, Sort::Message)
}

/// Whether a sort is a timer.
pub(crate) fn is_timer(sort: Sort) -> bool
    ensures { result ≡ is_timer_sort sort }
{
    matches!(sort, Sort::Timer)
}
