// Calls of the laws on runs of code, at a host of a measurement that has ended.

use can_frame::Frame;
use code_meaning::laws;
use texts::NoMemory;
use vm_host::{Host, RecordFault};

/// A host of one timer, after the end of the measurement, which keeps nothing.
#[derive(Drop)]
struct Ended;

impl Host for Ended {
    ghost use Rattle.std.specs.Prelude.{true, false, [], ◌∷◌, ⊤};

    ghost meaning = { record {
      active_timers = λ host. false ∷ [];
      moment = λ host. 0;
      is_closed = λ host. true;
      faults = λ host. 0;
      takes = λ before effect after. ⊤;
      refuses = λ before effect after. ⊤;
    } };

    fn line(&mut self, _text: &[u8]) -> Result<(), RecordFault> {
        Ok(())
    }

    fn send(&mut self, _f: &Frame) -> Result<(), NoMemory> {
        Ok(())
    }

    fn stop(&mut self) {}

    fn set_timer(&mut self, _timer: u32, _micros: u64, _cyclic: bool) {}

    fn cancel(&mut self, _timer: u32) {}

    fn active(&self, _timer: u32) -> bool {
        false
    }

    fn now(&self) -> u64 {
        0
    }
}

#[test]
fn laws_can_be_called() {
    laws::statements_do_what_they_mean();
    laws::calls_do_what_they_mean();
    laws::code_means_its_tree();
    laws::machine_runs_its_tree::<Ended>();
    laws::each_procedure_has_one_ending();
    laws::worked_procedures_end_so();
}
