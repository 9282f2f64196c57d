// What a statement stands in.

ghost use Rattle.std.specs.Prelude.{◌≡◌};
ghost use Rattle.typed_tree.specs.SoundStatement.{in_loop, in_switch};
ghost use Rattle.sound_check.specs.Around.{around_of};

/// What a statement stands in.
#[derive(Clone, Copy)]
pub(crate) struct Around {
    /// The procedure's number: it may call each function of a smaller one.
    pub number: usize,
    /// Whether the procedure gives a number.
    pub gives: bool,
    /// Whether a `break` may stand here.
    pub breakable: bool,
    /// Whether a `continue` may stand here.
    pub continuable: bool,
}

impl Around {
    /// What the body of a loop here stands in.
    pub(crate) fn in_loop(self) -> Around
        ensures { around_of result ≡ in_loop (around_of self) }
    {
        Around {
            breakable: true,
            continuable: true,
            ..self
        }
    }

    /// What the groups of a `switch` here stand in.
    pub(crate) fn in_switch(self) -> Around
        ensures { around_of result ≡ in_switch (around_of self) }
    {
        Around {
            breakable: true,
            ..self
        }
    }
}
