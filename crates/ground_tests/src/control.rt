// Calls of the laws of control flow.

use control_flow::laws;

#[test]
fn laws_can_be_called() {
    laws::turns_left_are_enough::<bool>();
    laws::loops_unroll::<bool>();
}
