//! Laws of nodes that run their code. Each call does nothing: its contract is the law.

ghost use Rattle.std.specs.Prelude.{◌≡◌, ℕ, All};
ghost use Rattle.can_frame.specs.Frame.{IsFrame};
ghost use Rattle.node_rounds.specs.declared.occurrence.Trigger.{Trigger};
ghost use Rattle.node_rounds.specs.Follows.{IsFor};
ghost use Rattle.node_rounds.specs.Reaction.{Done, NodeState};
ghost use Rattle.node_run.specs.Code.{CodeMemory, code_reaction};
ghost use Rattle.node_run.specs.Sound.{CanOccur, IsSound};

/// A sound node does each task for one of its procedures by an occurrence that there can be, in one way, and
/// stays sound, with the same code. Each frame that it asks for is a classic CAN frame.
pub fn nodes_do_each_task_in_one_way()
    ensures does { (node : NodeState CodeMemory) (trigger : Trigger) (now : ℕ) → IsSound node →
        CanOccur trigger.occurrence → IsFor (code_reaction.procedures node) trigger →
        (done : Done (NodeState CodeMemory)) × code_reaction.does node trigger now done }
    ensures stays { (node : NodeState CodeMemory) (trigger : Trigger) (now : ℕ)
        (done : Done (NodeState CodeMemory)) → IsSound node → code_reaction.does node trigger now done →
        IsSound done.after }
    ensures same_code { (node : NodeState CodeMemory) (trigger : Trigger) (now : ℕ)
        (done : Done (NodeState CodeMemory)) → IsSound node → code_reaction.does node trigger now done →
        done.after.memory.code ≡ node.memory.code }
    ensures in_one_way { (node : NodeState CodeMemory) (trigger : Trigger) (now : ℕ)
        (done other : Done (NodeState CodeMemory)) → code_reaction.does node trigger now done →
        code_reaction.does node trigger now other → done ≡ other }
    ensures asks { (node : NodeState CodeMemory) (trigger : Trigger) (now : ℕ)
        (done : Done (NodeState CodeMemory)) → IsSound node → code_reaction.does node trigger now done →
        All IsFrame done.requests }
{}
