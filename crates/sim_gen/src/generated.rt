// The texts of a scenario and of its nodes' sources.

ghost use Rattle.std.specs.Prelude.{◌≡◌, ◌≤◌, ◌++◌, IfOk, OnOk, string_bytes};
ghost use Rattle.sim_gen.specs.Generated.{node_line, scenario_text, source, generated};

use items::Items;
use std::alloc::Global;
use texts::{NoMemory, Text};

/// The greatest number of nodes that a scenario may have.
pub const MAX_COUNT: u32 = 64;

// The identifier of node K is this and K.
const FIRST_IDENT: u32 = 256;

// What every node does.
const PROCEDURES: &str = "on start { setTimerCyclic(t, 20); }
on timer t { for (i = 0; i < 1000; i++) s = s + i; m.dword(0) = s; output(m); }
on message * { n++; }
on stopMeasurement { write(\"%ld\", n); }
";

/// A source and the name of its file.
#[derive(Debug, Drop)]
pub struct Source {
    /// The name of the file, beside the scenario.
    pub name: Text,
    /// What the file has.
    pub text: Text,
}

/// A generated scenario.
#[derive(Debug, Drop)]
pub struct Made {
    /// The text of the scenario file.
    pub scenario: Text,
    /// The sources of its nodes, in the scenario's order.
    pub sources: Items<Source>,
}

/// The scenario of so many nodes, and their sources. Takes time and memory linear in the count.
pub fn generate(alloc: Global, count: u32) -> Result<Made, NoMemory>
    requires some { 1 ≤ count }
    requires few { count ≤ MAX_COUNT }
    ensures { IfOk result (λ made. made ≡ generated count) }
{
    Ok(Made {
        scenario: scenario(alloc, count)?,
        sources: sources(alloc, count)?,
    })
}

/// The text of the scenario.
fn scenario(alloc: Global, count: u32) -> Result<Text, NoMemory>
    requires { count ≤ MAX_COUNT }
    ensures { IfOk result (λ text. text ≡ scenario_text count) }
{
    let mut text = String::from_str(alloc, "scenario 1\n")?;
    for index in 0..count {
        append_node(&mut text, index + 1)?;
    }
    text.push_str("until 1000\n")?;
    Text::make(alloc, text.as_bytes())
}

/// Appends the line of a node.
fn append_node(text: &mut String, number: u32) -> Result<(), NoMemory>
    ensures { OnOk result (string_bytes text.new ≡ string_bytes text.old ++ node_line number) }
{
    write!(text, "node n{number} n{number}.can\n")?;
    Ok(())
}

/// The sources of the nodes.
fn sources(alloc: Global, count: u32) -> Result<Items<Source>, NoMemory>
    requires { count ≤ MAX_COUNT }
    ensures { IfOk result (λ sources. sources ≡ (generated count).sources) }
{
    let mut sources = Vec::new(alloc);
    for index in 0..count {
        sources.push(source_of(alloc, index + 1)?)?;
    }
    Ok(Items::from_list(sources))
}

/// The source of a node.
fn source_of(alloc: Global, number: u32) -> Result<Source, NoMemory>
    requires { number ≤ MAX_COUNT }
    ensures { IfOk result (λ made. made ≡ source number) }
{
    let ident = FIRST_IDENT + number;
    let name = format!(in alloc; "n{number}.can")?;
    let mut text = format!(in alloc;
        "variables {{ message {ident} m; msTimer t; long i; long s; long n; }}\n"
    )?;
    text.push_str(PROCEDURES)?;
    Ok(Source {
        name: Text::make(alloc, name.as_bytes())?,
        text: Text::make(alloc, text.as_bytes())?,
    })
}
