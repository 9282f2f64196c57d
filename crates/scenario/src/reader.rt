// The scenario of a text.

ghost use Rattle.std.specs.Prelude.{◌≡◌, ◌<◌, ◌^◌, length, IfOk, IfErr};
ghost use Rattle.scenario.specs.Scenario.{IsScenario, IsScenarioRefusal};
ghost use Rattle.scenario.specs.Within.{IsWithin};
ghost use Rattle.scenario.specs.Inside.Draft.{rule_behind, rule_of_next, with_item, with_line};
ghost use Rattle.scenario.specs.Item.{fields_of, item_of};
ghost use Rattle.scenario.specs.declared.refusal.ScenarioRefusal.TheVariants.{Broken};

use crate::draft::Draft;
use crate::fields::fields_of;
use crate::item::{Item, item_of};
use crate::line::next_line;
use crate::refusal::ScenarioRefusal;
use crate::scenario::Scenario;
use std::alloc::Global;
use texts::{NoMemory, Rule};

/// The group of the rules of scenarios.
const GROUP: u8 = b'S';

/// The scenario that the text is, or the first line that breaks a rule, with the least rule that it
/// breaks. Takes time n log n in the keys, linear in all else but that each node's name is compared
/// with those before it, and memory linear in the text.
pub fn read(alloc: Global, bytes: &[u8]) -> Result<Scenario, ScenarioRefusal>
    requires { length bytes.now < 2 ^ 32 }
    ensures found { IfOk result (IsScenario bytes.now) }
    ensures within { IfOk result IsWithin }
    ensures refused { IfErr result (IsScenarioRefusal bytes.now) }
{
    let mut draft = Draft::new(alloc);
    let mut rest = bytes;
    let mut count = 0u32;
    while let Some((line, behind)) = next_line(rest) {
        if let Some(number) = read_line(alloc, line, &mut draft)? {
            return Err(broken(count + 1, number));
        }
        count += 1;
        rest = behind;
    }
    if !draft.is_started() {
        return Err(broken(1, 1));
    }
    if !draft.has_node() {
        return Err(broken(count + 1, 12));
    }
    Ok(draft.into_scenario(alloc)?)
}

/// The refusal of a line that breaks the rule of this number.
fn broken(line: u32, number: u8) -> ScenarioRefusal
    ensures { result ≡ Broken line record { group = 83; number = number } }
{
    ScenarioRefusal::Broken {
        line,
        rule: Rule {
            group: GROUP,
            number,
        },
    }
}

/// Adds what the line says to the draft, or gives the least rule that it breaks behind the lines
/// before it, and leaves the draft.
fn read_line(alloc: Global, line: &[u8], draft: &mut Draft) -> Result<Option<u8>, NoMemory>
    ensures rule { IfOk result (λ broken. broken ≡ rule_of_next draft.old line.now) }
    ensures after { result ≡ Ok None → draft.new ≡ with_line draft.old line.now }
{
    if let [] | [b'#', ..] = line {
        return Ok(None);
    }
    let item = item_of_line(alloc, line)?;
    add_item(item, draft)
}

/// The item of a line that is not passed over.
fn item_of_line(alloc: Global, line: &[u8]) -> Result<Item, NoMemory>
    ensures { IfOk result (λ item. item ≡ item_of (fields_of line.now)) }
{
    let fields = fields_of(alloc, line)?;
    item_of(alloc, fields.as_slice())
}

/// Adds an item to the draft, or gives the least rule that it breaks behind those before it, and leaves
/// the draft.
fn add_item(item: Item, draft: &mut Draft) -> Result<Option<u8>, NoMemory>
    ensures rule { IfOk result (λ broken. broken ≡ rule_behind draft.old item) }
    ensures after { result ≡ Ok None → draft.new ≡ with_item draft.old item }
{
    let broken = draft.rule_behind(&item);
    if broken.is_none() {
        draft.add(item)?;
    }
    Ok(broken)
}
