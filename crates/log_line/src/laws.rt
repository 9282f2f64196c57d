//! Laws of the lines. Each call does nothing: its contract is the law.

ghost use Rattle.std.specs.Prelude.{◌≡◌, ◌<◌, ◌≤◌, ◌^◌, List, ℕ};
ghost use Rattle.can_frame.specs.Frame.{FrameFields};
ghost use Rattle.log_line.specs.Reading.{IsInterface, Reads};
ghost use Rattle.log_line.specs.Written.{IsLoggable, entry_text};
ghost use Rattle.log_line.specs.declared.line.Entry.{Entry};
ghost use Rattle.log_line.specs.declared.line.Line.{Line};

/// A line has at most one reading.
pub fn one_reading()
    ensures { (line : List ℕ) (reading other : Line) → Reads line reading → Reads line other →
        reading ≡ other }
{}

/// A frame that was read from a line can be written to one.
pub fn read_frames_are_loggable()
    ensures { (line : List ℕ) (entry : Entry) → Reads line (Line.Entry entry) → IsLoggable entry.frame }
{}

/// A written line reads as its own entry, where the seconds have at most 15 digits, the interface is
/// one that lines can name, and the frame one that they can carry.
pub fn written_lines_read()
    ensures { (seconds micros : ℕ) (interface : List ℕ) (frame : FrameFields) →
        seconds < 10 ^ 15 → micros < 10 ^ 6 → IsInterface interface → IsLoggable frame →
        Reads (entry_text seconds micros interface frame)
        (Line.Entry (record { seconds = seconds; micros = micros; interface = interface; frame = frame })) }
{}
