// What a statement stands in.

ghost use Rattle.std.specs.Prelude.{◌≡◌};
ghost use Rattle.capl_meaning.specs.StatementRules.{in_body, in_loop, in_switch};
ghost use Rattle.check_statements.specs.Statement.{around_in};

/// What a statement stands in: a loop or a `switch`, so that a `break` may stand here; a loop, so that a
/// `continue` may.
#[derive(Clone, Copy, PartialEq, Eq)]
pub(crate) struct Around {
    /// Whether a `break` may stand here.
    pub breakable: bool,
    /// Whether a `continue` may.
    pub continuable: bool,
}

/// The body of a procedure.
pub(crate) fn in_body() -> Around
    ensures { around_in result ≡ in_body }
{
    Around {
        breakable: false,
        continuable: false,
    }
}

/// The body of a loop.
pub(crate) fn in_loop() -> Around
    ensures { around_in result ≡ in_loop }
{
    Around {
        breakable: true,
        continuable: true,
    }
}

/// The groups of a `switch`.
pub(crate) fn in_switch(around: Around) -> Around
    ensures { around_in result ≡ in_switch (around_in around) }
{
    Around {
        breakable: true,
        continuable: around.continuable,
    }
}
