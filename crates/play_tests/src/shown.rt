// Runs that are played for a sink in memory.

ghost use Rattle.std.specs.Prelude.{IfOk};
ghost use Rattle.sim_play.specs.Play.{AreLabelsOf};

use arbitration::PlainBus;
use items::Items;
use node_run::Node;
use run_bench::Start;
use sim_outside::MemSink;
use sim_play::{Labels, Out, Show, play};
use stack_vm::Meter;
use std::alloc::Global;
use std::test::Fail;
use texts::Text;

/// A text that is a name.
fn text(alloc: Global, name: &str) -> Result<Text, Fail> {
    Ok(Text::make(alloc, name.as_bytes())?)
}

/// Labels of nodes of these names, each with a file of its own, where the measurement begins in second 7.
fn labels(alloc: Global, nodes: &[Node], names: &[&str], skipped: u64) -> Result<Labels, Fail>
    ensures { IfOk result (λ labels. AreLabelsOf labels nodes.now) }
{
    if names.len() != nodes.len() {
        return Err("a name for each node".into());
    }
    let mut called = Vec::new(alloc);
    let mut files = Vec::new(alloc);
    for name in names {
        called.push(text(alloc, name)?)?;
        let file = text(alloc, &format!(in alloc; "{name}.can")?)?;
        files.push(Items::from_list(vec![in alloc; file]?))?;
    }
    Ok(Labels {
        names: Items::from_list(called),
        files: Items::from_list(files),
        interface: text(alloc, "vcan1")?,
        second: text(alloc, "vcan2")?,
        epoch: 7,
        skipped,
    })
}

/// A run that was shown: the sink, how often its procedures ran, and whether all was written.
#[derive(Drop)]
pub struct Shown {
    pub out: Out<MemSink>,
    pub meter: Meter,
    pub is_whole: bool,
}

/// Plays a run of nodes of these names for a sink in which these calls fail.
pub fn played(
    alloc: Global,
    start: Start<PlainBus>,
    names: &[&str],
    show: Show,
    skipped: u64,
    failing: &[(u64, usize)],
) -> Result<Shown, Fail> {
    let Start {
        mut core,
        mut meter,
    } = start;
    let labels = labels(alloc, core.nodes(), names, skipped)?;
    let mut out = Out::new(MemSink::new(alloc, failing.to_vec(alloc)?));
    let done = play(alloc, &mut core, show, &labels, &mut out, &mut meter);
    Ok(Shown {
        out,
        meter,
        is_whole: done.is_ok(),
    })
}
