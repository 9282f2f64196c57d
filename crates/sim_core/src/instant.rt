// Instants of a simulation.

ghost use Rattle.std.specs.Prelude.{◌≡◌, ◌<◌, ◌≤◌, List, Some, None, false, length, IfSome, OnOk, OnErr, IsErrOf};
ghost use Rattle.run_records.specs.Record.{RecordFaultsRise};
ghost use Rattle.node_rounds.specs.Reaction.{NodeState};
ghost use Rattle.node_run.specs.Code.{CodeMemory, code_reaction};
ghost use Rattle.node_run.specs.Sound.{CanOccur, IsSound};
ghost use Rattle.run_meaning.specs.Live.{Stands};
ghost use Rattle.run_meaning.specs.Moments.{least, next_timer};
ghost use Rattle.run_meaning.specs.Run.{EndsAt, HasBegun, IsEnded, Passed, RunState, next_instant, settled};
ghost use Rattle.sim_core.specs.declared.simulation.Phase.TheVariants.{New, Going, Over};
ghost use Rattle.sim_core.specs.Core.{DoesInstant, HasNoInstant, HaveRows, IsInstantCut, run_of, states_of};
ghost use Rattle.sim_core.specs.Inside.Rounds.{AreRoundsCut, HasStopped};

use crate::keys::{keys_at, make_requests, next_key, next_request, pass_keys};
use crate::simulation::{Core, Phase};
use can_bus::Bus;
use node_run::{Node, Round, TaskFault};
use run_records::Record;
use stack_vm::Meter;
use texts::NoMemory;

/// The lesser of two moments, where there are any.
fn least(a: Option<u64>, b: Option<u64>) -> Option<u64>
    ensures { result ≡ least a b }
{
    match (a, b) {
        (Some(a), Some(b)) => Some(a.min(b)),
        (Some(a), None) => Some(a),
        (None, b) => b,
    }
}

/// The least moment at which a timer of one of some nodes is due.
fn next_timer(nodes: &[Node]) -> Option<u64>
    ensures { result ≡ next_timer code_reaction (states_of nodes.now) }
{
    let mut next = None;
    for node in nodes {
        next = least(next, node.next_due());
    }
    next
}

impl<B: Bus> Core<B> {
    /// The moment of the next instant, where one comes: no node asked to stop, and it is in time.
    pub(crate) fn next_instant(&self) -> Option<u64>
        requires going { self.now.phase ≡ Going }
        ensures goes_on { IfSome result (λ moment. self.now.stops ≡ false) }
        ensures next { IfSome result (λ moment.
            next_instant code_reaction B.meaning (run_of self.now) ≡ Some moment) }
        ensures in_time { IfSome result (λ moment. moment ≤ self.now.until) }
        ensures none { result ≡ None → HasNoInstant B.meaning self.now }
        ensures stands { Stands IsSound CanOccur B.meaning (run_of self.now) }
    {
        let of_bus = self.bus.next_time();
        if self.stops {
            return None;
        }
        let of_inputs = least(
            next_key(self.keys.as_slice()),
            next_request(self.requests.as_slice()),
        );
        let moment = least(of_bus, least(next_timer(self.nodes.as_slice()), of_inputs))?;
        if moment <= self.until {
            Some(moment)
        } else {
            None
        }
    }

    /// What comes after the rounds of an instant: the requests of the replay, and arbitration.
    fn settle(&mut self) -> Result<(), NoMemory>
        requires over { self.old.phase ≡ Over }
        requires serves { length self.old.nodes < B.meaning.nodes self.old.bus }
        ensures settles { OnOk result (run_of self.new ≡ settled B.meaning (run_of self.old)) }
        ensures nodes { self.new.nodes ≡ self.old.nodes }
        ensures picks { self.new.picks ≡ self.old.picks }
        ensures until { self.new.until ≡ self.old.until }
        ensures serves { OnOk result (length self.new.nodes < B.meaning.nodes self.new.bus) }
        ensures over { self.new.phase ≡ Over }
    {
        let node = self.nodes.len() as u32;
        make_requests(&mut self.requests, node, &mut self.bus, self.moment)?;
        pass_keys(&mut self.keys, self.moment);
        self.bus.arbitrate(self.moment);
        Ok(())
    }

    /// Does the instant at moment 0: the round before the start, that of the start with the keys of the
    /// moment, and what comes after them.
    pub(crate) fn begin<R: Record>(
        &mut self,
        into: &mut R,
        meter: &mut Meter,
    ) -> Result<(), TaskFault>
        requires is_new { self.old.phase ≡ New }
        requires rows { HaveRows meter.old self.old.nodes }
        ensures does { OnOk result (DoesInstant B.meaning R.meaning
            self.old into.old meter.old self.new into.new meter.new) }
        ensures cut { OnErr result (IsInstantCut B.meaning R.meaning
            self.old into.old into.new meter.old meter.new) }
        ensures fault { IsErrOf result TaskFault.Record → RecordFaultsRise R.meaning into.old into.new }
        ensures faults_stay { R.meaning.faults into.old ≤ R.meaning.faults into.new }
        ensures over { OnErr result (self.new.phase ≡ Over) }
        ensures as_many_rows { length meter.new ≡ length meter.old }
        ensures stands { (rounds : List Passed) (after : RunState (NodeState CodeMemory) B) →
            HasBegun code_reaction B.meaning (run_of self.old) rounds after →
            Stands IsSound CanOccur B.meaning after }
    {
        self.phase = Phase::Over;
        let Ok(keys) = keys_at(self.alloc, self.keys.as_slice(), 0) else {
            return Err(TaskFault::NoMemory);
        };
        self.do_round(Round::PreStart, &None, &[], into, meter)?;
        self.do_round(Round::Start, &None, &keys, into, meter)?;
        let Ok(()) = self.settle() else {
            return Err(TaskFault::NoMemory);
        };
        self.phase = Phase::Going;
        Ok(())
    }

    /// Does the instant at the next moment.
    pub(crate) fn do_instant<R: Record>(
        &mut self,
        now: u64,
        into: &mut R,
        meter: &mut Meter,
    ) -> Result<(), TaskFault>
        requires going { self.old.phase ≡ Going }
        requires goes_on { self.old.stops ≡ false }
        requires next { next_instant code_reaction B.meaning (run_of self.old) ≡ Some now }
        requires in_time { now ≤ self.old.until }
        requires rows { HaveRows meter.old self.old.nodes }
        ensures does { OnOk result (DoesInstant B.meaning R.meaning
            self.old into.old meter.old self.new into.new meter.new) }
        ensures cut { OnErr result (IsInstantCut B.meaning R.meaning
            self.old into.old into.new meter.old meter.new) }
        ensures fault { IsErrOf result TaskFault.Record → RecordFaultsRise R.meaning into.old into.new }
        ensures faults_stay { R.meaning.faults into.old ≤ R.meaning.faults into.new }
        ensures over { OnErr result (self.new.phase ≡ Over) }
        ensures as_many_rows { length meter.new ≡ length meter.old }
    {
        self.phase = Phase::Over;
        self.do_rounds(now, into, meter)?;
        let Ok(()) = self.settle() else {
            return Err(TaskFault::NoMemory);
        };
        self.phase = Phase::Going;
        Ok(())
    }

    /// The moment at which the run ends: the present one, where a node asked to stop, else the end moment.
    fn end_moment(&self) -> u64
        requires over { HasNoInstant B.meaning self.now }
        ensures ends { EndsAt self.now.stops self.now.moment
            (next_instant code_reaction B.meaning (run_of self.now)) self.now.until result }
        ensures in_time { result ≤ self.now.until }
    {
        if self.stops { self.moment } else { self.until }
    }

    /// Does the round of the stop, at the present moment, where a node asked to stop, else at the end moment.
    pub(crate) fn do_stop<R: Record>(
        &mut self,
        into: &mut R,
        meter: &mut Meter,
    ) -> Result<(), TaskFault>
        requires over { HasNoInstant B.meaning self.old }
        requires rows { HaveRows meter.old self.old.nodes }
        ensures does { OnOk result (HasStopped B.meaning R.meaning
            self.old into.old meter.old self.new into.new meter.new) }
        ensures cut { OnErr result (AreRoundsCut R.meaning
            (IsEnded code_reaction B.meaning self.old.until (run_of self.old))
            self.old into.old into.new meter.old meter.new) }
        ensures fault { IsErrOf result TaskFault.Record → RecordFaultsRise R.meaning into.old into.new }
        ensures faults_stay { R.meaning.faults into.old ≤ R.meaning.faults into.new }
        ensures over { self.new.phase ≡ Over }
    {
        self.moment = self.end_moment();
        self.phase = Phase::Over;
        self.do_round(Round::Stop, &None, &[], into, meter)?;
        Ok(())
    }
}
