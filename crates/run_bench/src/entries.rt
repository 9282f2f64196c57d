// What a run must leave in a record and in a meter.

use can_frame::Ident;
use run_records::Noted;
use stack_vm::Meter;

/// An entry, with its moment.
#[derive(Clone, Copy, Debug)]
pub enum Entry {
    /// A line of the first node, with this text.
    Line(u64, &'static str),
    /// A line of the second node, with this text.
    Second(u64, &'static str),
    /// A frame of this standard identifier, which has so many bytes.
    Frame(u64, u16, u8),
}

/// Whether a record noted this entry.
fn is_noted(noted: &Noted, entry: &Entry) -> bool {
    match (noted, entry) {
        (Noted::Line { now, node, text }, Entry::Line(at, line)) => {
            now == at && *node == 0 && text.bytes() == line.as_bytes()
        }
        (Noted::Line { now, node, text }, Entry::Second(at, line)) => {
            now == at && *node == 1 && text.bytes() == line.as_bytes()
        }
        (Noted::Frame { now, frame }, Entry::Frame(at, name, bytes)) => {
            now == at && frame.ident() == Ident::Std(*name) && frame.dlc() == *bytes
        }
        _ => false,
    }
}

/// Whether a record noted these entries, in this order, and no other.
pub fn are_noted(noted: &[Noted], wanted: &[Entry]) -> bool {
    noted.len() == wanted.len()
        && noted
            .iter()
            .zip(wanted)
            .all(|(noted, wanted)| is_noted(noted, wanted))
}

/// Whether a meter has a row of so many runs and turns in this place.
fn has_row(meter: &Meter, place: usize, (runs, turns): (u64, u64)) -> bool {
    meter
        .row(place)
        .is_some_and(|row| row.runs == runs && row.turns == turns)
}

/// Whether a meter has these rows of runs and turns, and no other.
pub fn has_rows(meter: &Meter, wanted: &[(u64, u64)]) -> bool {
    meter.rows() == wanted.len()
        && wanted
            .iter()
            .enumerate()
            .all(|(place, row)| has_row(meter, place, *row))
}
