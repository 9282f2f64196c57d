// Why a text gives no scenario.

use texts::{NoMemory, Rule};

/// Why a text gives no scenario.
#[derive(Debug, PartialEq, Eq, Drop)]
pub enum ScenarioRefusal {
    /// A line breaks a rule, and none before it does.
    Broken {
        /// The line, counted from 1.
        line: u32,
        /// The least rule that it breaks.
        rule: Rule,
    },
    /// Memory was refused.
    NoMemory,
}

impl From<NoMemory> for ScenarioRefusal {
    ghost use Rattle.std.specs.Prelude.{◌≡◌};
    ghost use Rattle.scenario.specs.declared.refusal.ScenarioRefusal.TheVariants.{NoMemory};

    ghost from_gives = { λ _ refusal. refusal ≡ NoMemory };

    fn from(_error: NoMemory) -> ScenarioRefusal {
        ScenarioRefusal::NoMemory
    }
}
