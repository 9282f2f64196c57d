//! Laws of the definitions. Each call does nothing: its contract is the law.

ghost use Rattle.std.specs.Prelude.{◌≡◌, ℕ, Bool};
ghost use Rattle.can_frame.specs.Frame.{FrameFields, IsFrame};
ghost use Rattle.message_cells.specs.Message.{frame_of};
ghost use Rattle.stack_vm.specs.Frame.{message_of};

/// The frame of the message that a frame is, is that frame, on channel 1.
pub fn a_message_is_sent_as_its_frame()
    ensures { (f : FrameFields) (sent : Bool) (now : ℕ) →
        IsFrame f → frame_of (message_of f sent now) ≡ record f { can = 1 } }
{}
