// Procedures that are for what an earlier one is for.

ghost use Rattle.std.specs.Prelude.{◌≡◌, ◌<◌, ◌≤◌, ◌++◌, ◌∷◌, ◌||◌, [], ℕ, All, List, IfOk, OnOk, filter_map, flat_map, map};
ghost use Rattle.std.specs.List.{list_any};
ghost use Rattle.capl_meaning.specs.ProcedureRules.{ForFrames, Told, channels_of, collide, purpose_offences, told_by_head, told_by_part, told_by_selector};
ghost use Rattle.capl_meaning.specs.StatementRules.{repeated};
ghost use Rattle.check_names.specs.First.{noted};
ghost use Rattle.check_names.specs.Inside.Covered.{Covers};
ghost use Rattle.check_names.specs.Inside.Purpose.{IsOrdinary, IsOrdinaryTelling, Knows, any_meet, first_numbers, number_of, number_of_key, numbers_where, purpose_of, purpose_offence, same_purpose, second_numbers, told_at};
ghost use Rattle.check_names.specs.Part.{part_in, parts_in};

use crate::covered::Covered;
use crate::global::names_timer;
use crate::names::Names;
use crate::part::ProgramPart;
use crate::rule::{SAME_PURPOSE, note_where};
use crate::seed::Seed;
use crate::selector::{holds_first, holds_second, selector_of, selector_place};
use crate::table::NameTable;
use capl_meaning::Offence;
use capl_tree::{Head, Sel};
use run_effects::Selector;
use std::alloc::Global;
use texts::{NoMemory, Text};

/// What a procedure is for.
#[derive(Clone, Copy)]
enum Purpose<'p> {
    /// Frames of a selector, on its channel, 0 being both.
    Frames { chan: u8, keys: Selector },
    /// A timer, by its name.
    Timer(&'p Text),
    /// A key, or those that have no procedure.
    Key(Option<u8>),
}

/// What a procedure is for, and where that is told.
#[derive(Clone, Copy)]
struct Telling<'p> {
    /// The number of the file.
    file: u32,
    /// The token of the selector, or of `on`.
    token: u32,
    /// What the procedure is for.
    purpose: Purpose<'p>,
}

/// What the procedures so far are for.
#[derive(Drop)]
struct Purposes<'p> {
    /// Numbers that stand for the frames of the first channel, and for keys.
    first: Covered,
    /// Numbers that stand for the frames of the second.
    second: Covered,
    /// The names of the timers.
    timers: NameTable<'p>,
}

/// Appends what selectors tell.
fn list_selectors<'p>(
    names: &Names,
    file: u32,
    selectors: &[Sel],
    into: &mut Vec<Telling<'p>>,
) -> Result<(), NoMemory>
    ensures told { OnOk result (told_at into.new.items
        ≡ told_at into.old.items ++ filter_map (told_by_selector names.now.base file) selectors.now) }
    ensures ordinary { All IsOrdinaryTelling into.old.items →
        OnOk result (All IsOrdinaryTelling into.new.items) }
{
    for selector in selectors {
        if let Some(keys) = selector_of(names, &selector.what) {
            into.push(Telling {
                file,
                token: selector_place(selector),
                purpose: Purpose::Frames {
                    chan: selector.chan,
                    keys,
                },
            })?;
        }
    }
    Ok(())
}

/// Appends what the head of a procedure tells, where its `on` stands at a token.
fn list_head<'p>(
    names: &Names,
    file: u32,
    at: u32,
    head: &'p Head,
    into: &mut Vec<Telling<'p>>,
) -> Result<(), NoMemory>
    ensures told { OnOk result (told_at into.new.items
        ≡ told_at into.old.items ++ told_by_head names.now file at head.now) }
    ensures ordinary { All IsOrdinaryTelling into.old.items →
        OnOk result (All IsOrdinaryTelling into.new.items) }
{
    match head {
        Head::Message(selectors) => list_selectors(names, file, selectors.as_slice(), into)?,
        Head::Timer { name, .. } if names_timer(names, name.bytes()) => into.push(Telling {
            file,
            token: at,
            purpose: Purpose::Timer(name),
        })?,
        Head::Key { value } => into.push(Telling {
            file,
            token: at,
            purpose: Purpose::Key(*value),
        })?,
        Head::PreStart | Head::Start | Head::Stop | Head::Timer { .. } | Head::Function { .. } => {}
    }
    Ok(())
}

/// Appends what a part of a program tells.
fn list_part<'p>(
    names: &Names,
    part: ProgramPart<'p>,
    into: &mut Vec<Telling<'p>>,
) -> Result<(), NoMemory>
    ensures told { OnOk result (told_at into.new.items
        ≡ told_at into.old.items ++ told_by_part names.now (part_in part.entry)) }
    ensures ordinary { All IsOrdinaryTelling into.old.items →
        OnOk result (All IsOrdinaryTelling into.new.items) }
{
    match part {
        ProgramPart::Globals { .. } => Ok(()),
        ProgramPart::Procedure {
            file,
            procedure,
            ..
        } => list_head(names, file, procedure.at, &procedure.head, into),
    }
}

/// What parts of a program tell, in order.
fn tellings<'p>(
    alloc: Global,
    names: &Names,
    parts: &[ProgramPart<'p>],
) -> Result<Vec<Telling<'p>>, NoMemory>
    ensures told { IfOk result (λ all. told_at all.items ≡
        flat_map (told_by_part names.now) (parts_in parts.now)) }
    ensures ordinary { IfOk result (λ all. All IsOrdinaryTelling all.items) }
{
    let mut all = Vec::new(alloc);
    for part in parts {
        list_part(names, *part, &mut all)?;
    }
    Ok(all)
}

/// The number that stands for a selection key of a rank.
fn number_of(rank: u8, key: u32) -> u64
    ensures { result ≡ number_of rank key }
{
    rank as u64 * 0x1_0000_0000 + key as u64
}

/// The number that stands for a key that is pressed, or for those that have no procedure.
fn number_of_key(key: Option<u8>) -> u64
    ensures { result ≡ number_of_key key }
{
    match key {
        None => 0x3_0000_0000,
        Some(key) => 0x3_0000_0001 + key as u64,
    }
}

/// Takes these keys, if they are on the channel of these numbers, and says whether some of the numbers so far
/// is among them.
fn add_where(numbers: &mut Covered, holds: bool, keys: Selector) -> Result<bool, NoMemory>
    requires { keys.low ≤ keys.high }
    ensures known { (all : List (ℕ × ℕ)) → Covers numbers.old all →
        IfOk result (λ known. known ≡ any_meet (numbers_where holds keys) all) }
    ensures taken { (all : List (ℕ × ℕ)) → Covers numbers.old all →
        OnOk result (Covers numbers.new (numbers_where holds keys ++ all)) }
{
    if !holds {
        return Ok(false);
    }
    numbers.add(
        number_of(keys.rank, keys.low),
        number_of(keys.rank, keys.high),
    )
}

impl<'p> Purposes<'p> {
    /// Nothing.
    fn new(alloc: Global, seed: Seed) -> Purposes<'p>
        ensures { Knows result [] }
    {
        Purposes {
            first: Covered::new(alloc),
            second: Covered::new(alloc),
            timers: NameTable::new(alloc, seed),
        }
    }

    /// Takes these keys on a channel, 0 being both, and says whether some procedure so far has a number in
    /// common with them.
    fn add_frames(&mut self, chan: u8, keys: Selector) -> Result<bool, NoMemory>
        requires { keys.low ≤ keys.high }
        ensures known { (first second : List (ℕ × ℕ)) →
            Covers self.old.first first → Covers self.old.second second → IfOk result (λ known. known
            ≡ (any_meet (first_numbers (ForFrames (channels_of chan) keys)) first
            || any_meet (second_numbers (ForFrames (channels_of chan) keys)) second)) }
        ensures first { (all : List (ℕ × ℕ)) → Covers self.old.first all →
            OnOk result (Covers self.new.first (first_numbers (ForFrames (channels_of chan) keys) ++ all)) }
        ensures second { (all : List (ℕ × ℕ)) → Covers self.old.second all →
            OnOk result (Covers self.new.second (second_numbers (ForFrames (channels_of chan) keys) ++ all)) }
        ensures timers { self.new.timers ≡ self.old.timers }
    {
        let first = add_where(&mut self.first, holds_first(chan), keys)?;
        let second = add_where(&mut self.second, holds_second(chan), keys)?;
        Ok(first | second)
    }

    /// Takes what one more procedure is for, and says whether an earlier one is for it. Takes amortized time
    /// logarithmic in the selectors and keys, constant where all came in ascending order, and linear in the
    /// name of a timer.
    fn add(&mut self, purpose: Purpose<'p>) -> Result<bool, NoMemory>
        requires { IsOrdinary (purpose_of purpose) }
        ensures known { (earlier : List Told) → Knows self.old earlier → IfOk result (λ known.
            known ≡ list_any (λ told. collide (purpose_of purpose.entry) told.purpose) earlier) }
        ensures taken { (earlier : List Told) (told : Told) → told.purpose ≡ purpose_of purpose.entry →
            Knows self.old earlier → OnOk result (Knows self.new (told ∷ earlier)) }
    {
        let known = match purpose {
            Purpose::Frames { chan, keys } => self.add_frames(chan, keys)?,
            Purpose::Timer(name) => self.timers.note(name.bytes(), 0)?,
            Purpose::Key(key) => {
                let number = number_of_key(key);
                self.first.add(number, number)?
            }
        };
        Ok(known)
    }
}

/// Notes where a procedure is for what an earlier one is for.
fn note_collisions<'p>(
    alloc: Global,
    seed: Seed,
    tellings: &[Telling<'p>],
    first: &mut Option<Offence>,
) -> Result<(), NoMemory>
    requires { All IsOrdinaryTelling tellings.now }
    ensures { OnOk result (first.new ≡ noted first.old
        (map purpose_offence (repeated same_purpose [] (told_at tellings.now)))) }
{
    let mut purposes = Purposes::new(alloc, seed);
    for telling in tellings {
        let known = purposes.add(telling.purpose)?;
        note_where(known, telling.file, telling.token, SAME_PURPOSE, first);
    }
    Ok(())
}

/// Notes where two selectors of one rank overlap on a channel, and where two procedures are for one timer or
/// one key. Takes time n log n in the selectors and procedures.
pub(crate) fn note_purposes(
    alloc: Global,
    names: &Names,
    seed: Seed,
    parts: &[ProgramPart],
    first: &mut Option<Offence>,
) -> Result<(), NoMemory>
    ensures { OnOk result (first.new ≡ noted first.old (purpose_offences names.now (parts_in parts.now))) }
{
    let tellings = tellings(alloc, names, parts)?;
    note_collisions(alloc, seed, tellings.as_slice(), first)
}
