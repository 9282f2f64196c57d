// The selectors of a node.

ghost use Rattle.std.specs.Prelude.{◌↔◌, IfOk, IfSome, IfNone, IsTrue, length};
ghost use Rattle.std.specs.List.Sorted.{IsPermutation};
ghost use Rattle.can_frame.specs.Frame.{selection_key};
ghost use Rattle.msg_select.specs.Selection.{IsChosen, NoneHolds};
ghost use Rattle.msg_select.specs.Inside.Selectors.{AreRuns, IsBehind, IsByRank, IsFirstHolder, IsRun};

use crate::selector::MessageSelector;
use can_frame::{Frame, sel_key};
use std::alloc::Global;
use std::marker::Model;
use texts::NoMemory;

/// The selectors of a node's message procedures. Contracts see the list of them, by rank.
#[derive(Drop)]
pub struct Selectors {
    list: Vec<MessageSelector>,
    /// The places at which the runs of `list` end, the first run first. In a run each range begins
    /// behind the one before it.
    ends: Vec<usize>,
}

impl Model for Selectors {
    ghost use Rattle.std.specs.Prelude.{List};
    ghost use Rattle.msg_select.specs.declared.selector.MessageSelector.{MessageSelector};

    ghost Value = { List MessageSelector };

    ghost use Rattle.msg_select.specs.Fields.Selectors.{AreSelectors};

    ghost view = { λ selectors. selectors.list.items };

    ghost invariant = { AreSelectors };
}

impl Selectors {
    /// These selectors. Takes memory linear in their number, and time as a sort of them.
    pub fn build(alloc: Global, list: &[MessageSelector]) -> Result<Selectors, NoMemory>
        ensures { IfOk result (IsPermutation list.now) }
    {
        let list = by_rank(alloc, list)?;
        let ends = ends_of_runs(alloc, &list)?;
        Ok(Selectors { list, ends })
    }

    /// The handler of a selector of the least rank that holds the frame's selection key, or `None`
    /// exactly where no selector holds it. Where two selectors of one rank have no key in common, there
    /// is one choice at most (`laws::one_choice`), and the choice takes time logarithmic in the number
    /// of selectors for each rank; else also linear in how many selectors meet one of their rank.
    pub fn choose(&self, f: &Frame) -> Option<u32>
        ensures some { IfSome result (IsChosen self.now (selection_key f.now.ident)) }
        ensures none { IfNone result (NoneHolds self.now (selection_key f.now.ident)) }
    {
        let place = first_holder(&self.list, &self.ends, sel_key(f))?;
        Some(self.list[place].handler)
    }
}

/// The selectors by their rank, and those of one rank by their least keys. Ranges without a key stand
/// behind the others of their rank, where they cut no run of these.
fn by_rank(alloc: Global, list: &[MessageSelector]) -> Result<Vec<MessageSelector>, NoMemory>
    ensures { IfOk result (λ ordered. IsByRank list.now ordered.items) }
{
    let mut ordered = Vec::from_slice(alloc, list)?;
    ordered.sort_unstable_by_key(|selector| {
        (selector.rank, selector.high < selector.low, selector.low)
    });
    Ok(ordered)
}

/// The places at which the runs of the selectors end, the first run first. Takes time linear in their
/// number.
fn ends_of_runs(alloc: Global, list: &[MessageSelector]) -> Result<Vec<usize>, NoMemory>
    ensures { IfOk result (λ ends. AreRuns list.now 0 (length list.now) ends.items) }
{
    let mut ends = Vec::new(alloc);
    for place in 1..list.len() {
        if !is_behind(&list[place], &list[place - 1]) {
            ends.push(place)?;
        }
    }
    ends.push(list.len())?;
    Ok(ends)
}

/// Whether the range of a selector begins behind that of an earlier one, and at no lesser key.
fn is_behind(selector: &MessageSelector, earlier: &MessageSelector) -> bool
    ensures { IsTrue result ↔ IsBehind earlier.now selector.now }
{
    earlier.low <= selector.low && earlier.high < selector.low
}

/// The place of the first selector that holds the key, or `None` where none does, of selectors whose runs
/// end at these places. Takes time logarithmic in the selectors of each run.
fn first_holder(list: &[MessageSelector], ends: &[usize], key: u32) -> Option<usize>
    requires { AreRuns list.now 0 (length list.now) ends.now }
    ensures some { IfSome result (IsFirstHolder list.now key) }
    ensures none { IfNone result (NoneHolds list.now key) }
{
    let mut start = 0;
    for &end in ends {
        if let Some(place) = holder_in_run(&list[start..end], key) {
            return Some(start + place);
        }
        start = end;
    }
    None
}

/// The place of the selector of a run that holds the key, or `None` where none does. Takes time
/// logarithmic in the selectors of the run.
fn holder_in_run(run: &[MessageSelector], key: u32) -> Option<usize>
    requires { IsRun run.now }
    ensures some { IfSome result (IsFirstHolder run.now key) }
    ensures none { IfNone result (NoneHolds run.now key) }
{
    let place = run
        .partition_point(|selector| selector.low <= key)
        .checked_sub(1)?;
    (key <= run[place].high).then_some(place)
}
