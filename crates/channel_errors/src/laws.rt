//! Laws of the bus with planned errors. Each call does nothing: its contract is the law.

ghost use Rattle.std.specs.Prelude.{◌≡◌, ℕ, ◌≤◌, true};
ghost use Rattle.std.specs.Ordering.{nat_cmp};
ghost use Rattle.std.specs.FinSet.{FinSet, empty};
ghost use Rattle.can_bus.specs.Bus.{BusState};
ghost use Rattle.can_bus.specs.Bus as channel;
ghost use Rattle.can_bus.specs.Laws.{FramesCome};
ghost use Rattle.channel_errors.specs.Errors.{ErrorState, IsSoundErrors, is_off, new_bus, with_errors};
ghost use Rattle.channel_errors.specs.Laws.{GivesNothing, WaitsAgain, OffStays, ActsAsPlain, unplanned};

/// A bus on which nothing was requested is sound, where bits take time.
#[tactic(auto, using(crate::proofs::SoundStays::new_bus_is_sound))]
pub fn new_bus_is_sound()
    ensures { (bit nodes : ℕ) (planned : FinSet nat_cmp) → 1 ≤ bit
        → IsSoundErrors (new_bus bit planned nodes) }
{}

/// Frames come to the bus by requests alone, and what ends was on it: a disturbed frame that waits again
/// was on the wire.
pub fn frames_come_by_requests()
    ensures { FramesCome with_errors }
{}

/// `finish` gives `None` exactly where no undisturbed transmission ends at this moment.
#[tactic(auto, using(crate::proofs::Finish::gives_nothing))]
pub fn finish_gives_nothing()
    ensures { (s : ErrorState) (now : ℕ) → GivesNothing s now }
{}

/// The frame of a disturbed transmission waits again under its own number, where its node is not off
/// after it.
#[tactic(auto, using(crate::proofs::Finish::waits_again))]
pub fn disturbed_frame_waits_again()
    ensures { (s : ErrorState) (now : ℕ) → WaitsAgain s now }
{}

/// A node that is off on a sound bus stays off, whatever the call.
#[tactic(auto, using(crate::proofs::OffStays::off_stays))]
pub fn node_that_is_off_stays_off()
    ensures { (s : ErrorState) (node : ℕ) → IsSoundErrors s → is_off s node ≡ true → OffStays s node }
{}

/// A bus with no planned number is the plain bus, call by call: from the beginning it is that bus beside
/// counts of 0, it gives what that bus gives, and stays so.
pub fn without_plan_plain()
    ensures beginning { (bit nodes : ℕ) → new_bus bit empty nodes ≡ unplanned (channel.new_bus bit) 0 nodes }
    ensures calls { (s : BusState) (begun nodes : ℕ) → ActsAsPlain s begun nodes }
{}
