// Rounds of a simulation.

ghost use Rattle.std.specs.Prelude.{◌≡◌, ◌≤◌, [], ◌∷◌, length, All, IfSome, OnOk, OnErr, IsErrOf};
ghost use Rattle.run_records.specs.declared.record.Noted.{Noted};
ghost use Rattle.run_records.specs.Record.{RecordFaultsRise, RefusesEntry};
ghost use Rattle.node_rounds.specs.Effects.{TakesEntries};
ghost use Rattle.node_rounds.specs.declared.occurrence.Occurrence.TheVariants.{Key};
ghost use Rattle.node_run.specs.Code.{code_reaction};
ghost use Rattle.node_run.specs.Sound.{CanOccur};
ghost use Rattle.run_meaning.specs.Live.{CanBeSeen};
ghost use Rattle.run_meaning.specs.Run.{AreRounds, IsSecond, finished};
ghost use Rattle.run_meaning.specs.Steps.{ended_steps, entries};
ghost use Rattle.sim_core.specs.declared.simulation.Phase.TheVariants.{Over};
ghost use Rattle.sim_core.specs.Core.{HaveRows, KeepsCore, run_of};
ghost use Rattle.sim_core.specs.Inside.Kept.{IsAtRest};
ghost use Rattle.sim_core.specs.Inside.Rounds.{AreRoundsCut, DoesRound, DoesRounds, IsOneRound, IsRoundCut, StaysInRound};

use crate::keys::keys_at;
use crate::simulation::Core;
use crate::tasks::{begin_all, do_tasks, list_open};
use can_bus::{Bus, Ended};
use node_run::{Round, TaskFault};
use run_records::Record;
use stack_vm::Meter;
use vm_host::RecordFault;

/// Records the frame that ended at a moment, where one did.
fn record_ended<R: Record>(into: &mut R, now: u64, ended: &Option<Ended>) -> Result<(), RecordFault>
    ensures taken { OnOk result (TakesEntries R.meaning into.old (entries (ended_steps now ended.now))
        into.new) }
    ensures refused { OnErr result ((noted : Noted) × (entries (ended_steps now ended.now) ≡ noted ∷ [])
        × RefusesEntry R.meaning into.old noted into.new) }
    ensures sink { IsErrOf result RecordFault.Sink → RecordFaultsRise R.meaning into.old into.new }
    ensures faults_stay { R.meaning.faults into.old ≤ R.meaning.faults into.new }
{
    if let Some(ended) = ended {
        into.frame(now, &ended.frame)?;
    }
    Ok(())
}

impl<B: Bus> Core<B> {
    /// Does a round at the present moment, with the frame that ended and the keys that are pressed.
    pub(crate) fn do_round<R: Record>(
        &mut self,
        round: Round,
        ended: &Option<Ended>,
        keys: &[u8],
        into: &mut R,
        meter: &mut Meter,
    ) -> Result<(), TaskFault>
        requires over { self.old.phase ≡ Over }
        requires rest { IsAtRest B.meaning self.old.moment self.old }
        requires seen { IfSome ended.now (λ e. CanBeSeen CanOccur e.frame) }
        requires keys { All (λ key. CanOccur (Key key)) keys.now }
        requires rows { HaveRows meter.old self.old.nodes }
        ensures does { OnOk result (DoesRound B.meaning R.meaning round ended.now keys.now
            self.old into.old meter.old self.new into.new meter.new) }
        ensures rest { OnOk result (IsAtRest B.meaning self.new.moment self.new) }
        ensures cut { OnErr result (IsRoundCut B.meaning R.meaning round ended.now keys.now
            self.old into.old into.new meter.old meter.new) }
        ensures fault { IsErrOf result TaskFault.Record → RecordFaultsRise R.meaning into.old into.new }
        ensures faults_stay { R.meaning.faults into.old ≤ R.meaning.faults into.new }
        ensures stays { StaysInRound self.old self.new }
        ensures as_many_rows { length meter.new ≡ length meter.old }
    {
        let Ok(()) = begin_all(&mut self.nodes, round, self.moment, ended, keys) else {
            return Err(TaskFault::NoMemory);
        };
        let Ok(()) = list_open(&self.nodes, &mut self.open_ones) else {
            return Err(TaskFault::NoMemory);
        };
        let stops = do_tasks(
            &mut self.nodes,
            &mut self.open_ones,
            self.moment,
            &mut self.bus,
            &mut self.picks,
            into,
            meter,
        )?;
        self.stops |= stops;
        Ok(())
    }

    /// Records the frame that ended, where one did, and does the round of a moment with it and with the keys
    /// that are pressed.
    fn do_one<R: Record>(
        &mut self,
        ended: &Option<Ended>,
        keys: &[u8],
        into: &mut R,
        meter: &mut Meter,
    ) -> Result<(), TaskFault>
        requires over { self.old.phase ≡ Over }
        requires rest { IsAtRest B.meaning self.old.moment self.old }
        requires seen { IfSome ended.now (λ e. CanBeSeen CanOccur e.frame) }
        requires keys { All (λ key. CanOccur (Key key)) keys.now }
        requires rows { HaveRows meter.old self.old.nodes }
        ensures does { OnOk result (DoesRounds R.meaning (IsOneRound B.meaning ended.now keys.now (run_of
            self.old))
            self.old into.old meter.old self.new into.new meter.new) }
        ensures rest { OnOk result (IsAtRest B.meaning self.new.moment self.new) }
        ensures cut { OnErr result (AreRoundsCut R.meaning (IsOneRound B.meaning ended.now keys.now (run_of
            self.old))
            self.old into.old into.new meter.old meter.new) }
        ensures fault { IsErrOf result TaskFault.Record → RecordFaultsRise R.meaning into.old into.new }
        ensures faults_stay { R.meaning.faults into.old ≤ R.meaning.faults into.new }
        ensures stays { StaysInRound self.old self.new }
        ensures as_many_rows { length meter.new ≡ length meter.old }
    {
        record_ended(into, self.moment, ended)?;
        self.do_round(Round::Moment, ended, keys, into, meter)?;
        Ok(())
    }

    /// Asks the bus once more, and where a further frame ended does a second round with it, without keys.
    fn do_second<R: Record>(&mut self, into: &mut R, meter: &mut Meter) -> Result<(), TaskFault>
        requires over { self.old.phase ≡ Over }
        requires rest { IsAtRest B.meaning self.old.moment self.old }
        requires rows { HaveRows meter.old self.old.nodes }
        ensures does { OnOk result (DoesRounds R.meaning (IsSecond code_reaction B.meaning
            (B.meaning.ended self.old.bus self.old.moment) (finished B.meaning self.old.moment (run_of
            self.old)))
            self.old into.old meter.old self.new into.new meter.new) }
        ensures rest { OnOk result (IsAtRest B.meaning self.new.moment self.new) }
        ensures cut { OnErr result (AreRoundsCut R.meaning (IsSecond code_reaction B.meaning
            (B.meaning.ended self.old.bus self.old.moment) (finished B.meaning self.old.moment (run_of
            self.old)))
            self.old into.old into.new meter.old meter.new) }
        ensures fault { IsErrOf result TaskFault.Record → RecordFaultsRise R.meaning into.old into.new }
        ensures faults_stay { R.meaning.faults into.old ≤ R.meaning.faults into.new }
        ensures stays { StaysInRound self.old self.new }
        ensures as_many_rows { length meter.new ≡ length meter.old }
    {
        let more = self.bus.finish(self.moment);
        if more.is_some() {
            self.do_one(&more, &[], into, meter)?;
        }
        Ok(())
    }

    /// Does the rounds of a moment: with the frame that ends and the keys of the moment, and with one more
    /// frame, where the bus gives one.
    pub(crate) fn do_rounds<R: Record>(
        &mut self,
        now: u64,
        into: &mut R,
        meter: &mut Meter,
    ) -> Result<(), TaskFault>
        requires over { self.old.phase ≡ Over }
        requires in_time { now ≤ self.old.until }
        requires rest { IsAtRest B.meaning now self.old }
        requires keys { All (λ key. CanOccur (Key key.key)) self.old.keys }
        requires rows { HaveRows meter.old self.old.nodes }
        ensures does { OnOk result (DoesRounds R.meaning
            (AreRounds code_reaction B.meaning now (run_of self.old))
            self.old into.old meter.old self.new into.new meter.new) }
        ensures rest { OnOk result (IsAtRest B.meaning self.new.moment self.new) }
        ensures cut { OnErr result (AreRoundsCut R.meaning
            (AreRounds code_reaction B.meaning now (run_of self.old))
            self.old into.old into.new meter.old meter.new) }
        ensures fault { IsErrOf result TaskFault.Record → RecordFaultsRise R.meaning into.old into.new }
        ensures faults_stay { R.meaning.faults into.old ≤ R.meaning.faults into.new }
        ensures keeps { KeepsCore self.old self.new }
        ensures inputs { OnOk result ((self.new.keys ≡ self.old.keys) × (self.new.requests ≡
            self.old.requests)) }
        ensures moment { OnOk result (self.new.moment ≡ now) }
        ensures over { self.new.phase ≡ Over }
        ensures as_many_rows { length meter.new ≡ length meter.old }
    {
        let Ok(keys) = keys_at(self.alloc, self.keys.as_slice(), now) else {
            return Err(TaskFault::NoMemory);
        };
        let ended = self.bus.finish(now);
        self.moment = now;
        self.do_one(&ended, &keys, into, meter)?;
        self.do_second(into, meter)?;
        Ok(())
    }
}
