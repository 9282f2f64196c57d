// How sources run.

ghost use Rattle.std.specs.Prelude.{⊤};
ghost use Rattle.source_laws.specs.Sound.{IsSoundSource};
ghost use Rattle.source_laws.specs.Reaction.{SourceMemory, by_source};
ghost use Rattle.source_laws.proofs.SoundSources.{events_stay, sound_does, sound_stays};
ghost use Rattle.source_laws.proofs.Tasks.{source_once};

use run_meaning::laws::LiveRunner;

/// Runs of sources. Nodes whose sources are accepted do each task, in one way.
pub struct Sources;

impl LiveRunner for Sources {
    ghost Memory = { SourceMemory };

    ghost runner = { by_source };

    ghost sound = { IsSoundSource };

    // A source takes whatever there is.
    ghost can = { λ occurrence. ⊤ };

    ghost lives = { record {
      timers = λ s sound. sound.timers;
      does = λ s trigger now sound can own. sound_does s trigger now sound own;
      stays = λ s trigger now done sound does. sound_stays s trigger now done sound does;
      events = λ s trigger now done sound does. events_stay s trigger now done sound does;
      in_one_way = λ s trigger now done other one also. source_once s trigger now done other one also;
      asks = λ s trigger now done sound does k d within sent. tt;
      plain = (tt, tt, tt, λ timer. tt);
    } };
}
