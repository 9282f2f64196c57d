//! Laws of texts. Each call does nothing: its contract is the law.

ghost use Rattle.std.specs.Prelude.{◌≡◌, ◌⊎◌, ◌<◌, ◌^◌, ℕ, List, [], length};
ghost use Rattle.texts.specs.declared.blame.Rule.{Rule};
ghost use Rattle.scenario.specs.Scenario.{IsScenario, IsScenarioRefusal};
ghost use Rattle.scenario.specs.declared.scenario.Scenario.{Scenario};
ghost use Rattle.scenario.specs.declared.refusal.ScenarioRefusal.TheVariants.{Broken};
ghost use Rattle.dbc_reader.specs.Database.{IsDatabase, IsDatabaseRefusal};
ghost use Rattle.dbc_reader.specs.declared.message.DbcMessage.{DbcMessage};
ghost use Rattle.dbc_reader.specs.declared.refusal.DbcRefusal.TheVariants as refusal;
ghost use Rattle.replay_node.specs.Replay.{IsBadLine, IsReplay};
ghost use Rattle.replay_node.specs.declared.replay.Replay.{Replay};
ghost use Rattle.scenario.specs.declared.scenario.Epoch.{Epoch};
ghost use Rattle.capl_lexer.specs.Reading.{IsReading, IsBadPlace};
ghost use Rattle.capl_lexer.specs.Screening.{Breaks};
ghost use Rattle.capl_lexer.specs.declared.token.Tok.{Tok};
ghost use Rattle.capl_lexer.specs.declared.token.Token.{Token};
ghost use Rattle.capl_include.specs.Expansion.{Contents, IsExpansion, Outcome};
ghost use Rattle.capl_grammar.specs.File.{IsSourceOf};
ghost use Rattle.capl_tree.specs.declared.file.FileTree.{FileTree};
ghost use Rattle.capl_tree.specs.declared.file.Program.{Program};
ghost use Rattle.viable_prefixes.specs.Prefix.{IsFirstWrong};
ghost use Rattle.capl_meaning.specs.Offences.{IsFirstOffence, offences_of};
ghost use Rattle.capl_meaning.specs.declared.offence.Offence.{Offence};

/// Each text has the tokens of a reading, or a place at which no blank, comment or token begins.
pub fn each_text_has_tokens_or_a_bad_place()
    ensures { (text : List ℕ) →
        ((tokens : List Token) × IsReading text tokens) ⊎ ((place : ℕ) × IsBadPlace text place) }
{}

/// Each text that memory could hold is a scenario, or a line breaks a rule.
pub fn each_text_is_a_scenario_or_breaks_a_rule()
    ensures { (text : List ℕ) → length text < 2 ^ 63 →
        ((scenario : Scenario) × IsScenario text scenario)
        ⊎ ((line : ℕ) × (rule : Rule) × IsScenarioRefusal text (Broken line rule)) }
{}

/// Each text is a database, or a line of it has a statement without a spelling, or one that gives an
/// identifier or a name for the second time.
pub fn each_text_is_a_database_or_has_a_wrong_statement()
    ensures { (text : List ℕ) →
        ((messages : List DbcMessage) × IsDatabase text messages)
        ⊎ ((line : ℕ) × IsDatabaseRefusal text (refusal.Text line))
        ⊎ ((line : ℕ) × IsDatabaseRefusal text (refusal.Twice line)) }
{}

/// Each log has a replay on each interface, or a bad line.
pub fn each_log_has_a_replay_or_a_bad_line()
    ensures { (log interface : List ℕ) (bit : ℕ) (epoch : Epoch) →
        ((replay : Replay) × IsReplay log interface bit epoch replay)
        ⊎ ((number : ℕ) × IsBadLine log number) }
{}

/// Tokens break no rule of the profile, or one of them is the first that does.
pub fn each_token_list_is_right_or_has_a_first_break()
    ensures { (tokens : List Token) →
        ((place : ℕ) (rule : Rule) → Breaks tokens place rule → ⊥)
        ⊎ ((place : ℕ) × (rule : Rule) × Breaks tokens place rule
        × ((earlier : ℕ) (other : Rule) → earlier < place → Breaks tokens earlier other → ⊥)) }
{}

/// Tokens spell a tree, or they spell none and one of them, or their end, is the first that is wrong.
pub fn each_token_list_spells_a_tree_or_has_a_first_wrong()
    ensures { (tokens : List Tok) →
        ((tree : FileTree) × IsSourceOf tokens tree)
        ⊎ ((number : ℕ) × ((tree : FileTree) → IsSourceOf tokens tree → ⊥) × IsFirstWrong tokens number) }
{}

/// A program breaks no rule of E09 to E28, or has a first offence.
pub fn each_program_is_right_or_has_a_first_offence()
    ensures { (base : List DbcMessage) (program : Program) →
        (offences_of base program ≡ [])
        ⊎ ((offence : Offence) × IsFirstOffence base program offence) }
{}

/// The expansion of a file over what the files hold goes to its end, or stops at a blame.
pub fn each_expansion_has_an_outcome()
    ensures { (contents : Contents) (name : List ℕ) →
        (outcome : Outcome) × IsExpansion contents name outcome }
{}
