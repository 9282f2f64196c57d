// How many instructions the code of an expression has, as a number of places.

ghost use Rattle.std.specs.Prelude.{◌≡◌, ◌<◌, ◌^◌, sum_by};
ghost use Rattle.typed_tree.specs.Size.{dropped_size, test_size, value_size};

use typed_tree::{TExpr, Typed};

/// How many instructions the code of an expression has as a value. Takes time linear in the
/// expression.
pub fn value_size(e: &TExpr, typed: &Typed) -> u32
    requires { value_size typed.now e.now < 2 ^ 32 }
    ensures { result ≡ value_size typed.now e.now }
{
    code_size::value_size(e, typed) as u32
}

/// How many instructions the code of an expression has as a test that goes to an exit where the
/// expression's truth is `when`, and whose own instruction goes there for the truth `fires`: not 0 for
/// an exit back, and 0 for one forward. Takes time linear in the expression.
pub fn test_size(e: &TExpr, typed: &Typed, when: bool, fires: bool) -> u32
    requires { test_size typed.now when fires e.now < 2 ^ 32 }
    ensures { result ≡ test_size typed.now when fires e.now }
{
    code_size::test_size(e, typed, when, fires) as u32
}
