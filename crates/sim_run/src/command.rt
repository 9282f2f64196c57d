// Commands.

ghost use Rattle.std.specs.Prelude.{◌≡◌, ◌≢◌, ◌≤◌, ℕ, codes, decimal, map, string_bytes, MatchOption};
ghost use Rattle.sim_run.specs.Command.{IsNoCommand, command_word, show_of};
ghost use Rattle.sim_run.specs.Inside.Answer.{AsksFor};
ghost use Rattle.sim_run.specs.declared.command.Command.{Command};

use itoa::Buffer;
use sim_gen::MAX_COUNT;
use sim_play::Show;

/// What is done with the inputs of a scenario.
#[derive(Clone, Copy, Debug, PartialEq, Eq)]
pub enum Command {
    /// Whether the inputs are accepted.
    Check,
    /// The texts that the nodes write.
    Window,
    /// The frames on the bus.
    Log,
    /// Both, in the order in which they happen.
    Run,
    /// How often each event procedure ran, and how many turns it took.
    Profile,
}

/// What a user asks for.
#[derive(Clone, Copy)]
pub(crate) enum Asked<'a> {
    /// A command on the scenario of this name.
    Files(Command, &'a [u8]),
    /// The summary of the generated scenario of so many nodes.
    Generated(u32),
}

/// The command of its word.
fn command_of_word(word: &str) -> Option<Command>
    ensures { MatchOption result ((command : Command) → word.now ≢ command_word command)
        (λ command. word.now ≡ command_word command) }
{
    if word == "check" {
        Some(Command::Check)
    } else if word == "window" {
        Some(Command::Window)
    } else if word == "log" {
        Some(Command::Log)
    } else if word == "run" {
        Some(Command::Run)
    } else if word == "profile" {
        Some(Command::Profile)
    } else {
        None
    }
}

/// The number of nodes that a word stands for, from 1 to 64, without a leading zero.
fn count_of_word(word: &str) -> Option<u32>
    ensures { MatchOption result ((count : ℕ) → 1 ≤ count → count ≤ MAX_COUNT → word.now ≢ decimal count)
        (λ count. (word.now ≡ decimal count) × (1 ≤ count) × (count ≤ MAX_COUNT)) }
{
    for before in 0..MAX_COUNT {
        let count = before + 1;
        let mut buffer = Buffer::new();
        if buffer.format(count) == word {
            return Some(count);
        }
    }
    None
}

/// What the words ask for, or None where they are no command.
pub(crate) fn asked_of(words: &[String]) -> Option<Asked<'_>>
    ensures { MatchOption result (IsNoCommand (map string_bytes words.now))
        (AsksFor (map string_bytes words.now)) }
{
    if words.len() != 2 {
        return None;
    }
    let word = words[0].as_str();
    if word == "gen" {
        return Some(Asked::Generated(count_of_word(words[1].as_str())?));
    }
    Some(Asked::Files(command_of_word(word)?, words[1].as_bytes()))
}

/// What a command shows of a run.
pub(crate) fn show_of(command: Command) -> Option<Show>
    ensures { result ≡ show_of command }
{
    match command {
        Command::Check => None,
        Command::Window => Some(Show::Window),
        Command::Log => Some(Show::Log),
        Command::Run => Some(Show::Both),
        Command::Profile => Some(Show::Profile),
    }
}
