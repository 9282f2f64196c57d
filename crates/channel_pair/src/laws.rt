//! Laws of the bus of two channels. Each call does nothing: its contract is the law.

ghost use Rattle.std.specs.Prelude.{◌≡◌, ℕ};
ghost use Rattle.can_bus.specs.Bus.{BusState, new_bus};
ghost use Rattle.channel_pair.specs.Pair.{PairState, IsSoundPair, new_pair};
ghost use Rattle.channel_pair.specs.Laws.{GivesNothing, HoldsNothingAfterTwo, GivesBoth, ActsAsOneChannel, beside_nothing};

/// `finish` gives `None` exactly where nothing is held and no frame ends at this moment on either
/// channel.
pub fn finish_gives_nothing()
    ensures { (s : PairState) (now : ℕ) → GivesNothing s now }
{}

/// After two calls of `finish` at one moment nothing is held, so an `arbitrate` behind them drops no
/// frame.
#[tactic(auto, using(crate::proofs::Finish::holds_nothing))]
pub fn two_finish_leave_nothing()
    ensures { (s : PairState) (now : ℕ) → IsSoundPair s → HoldsNothingAfterTwo s now }
{}

/// Where nothing is held, two calls of `finish` at one moment give the frame that ends on channel 1 and
/// then the one on channel 2, each where there is one: none is lost, and none is given twice.
#[tactic(auto, using(crate::proofs::Finish::gives_both))]
pub fn two_finish_give_both()
    ensures { (s : PairState) (now : ℕ) → GivesBoth s now }
{}

/// A bus of two channels to which no frame of channel 2 is given is the bus of one channel, call by
/// call: from the beginning it is that bus beside a channel on which nothing was requested, it gives
/// what that bus gives, and stays so.
pub fn one_channel_alone()
    ensures beginning { (bit : ℕ) → new_pair bit ≡ beside_nothing (new_bus bit) }
    ensures calls { (s : BusState) → ActsAsOneChannel s }
{}
