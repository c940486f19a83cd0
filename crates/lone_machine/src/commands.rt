//! What a party may begin it does to the end.
ghost use Rattle.std.specs.Prelude.{ℕ, List};
ghost use Rattle.executor_model.specs.Steps.{start};
ghost use Rattle.executor_model.specs.declared.kind.Kind.{Kind};
ghost use Rattle.lone_machine.specs.Commands.{AreMade, Command, MayFollow};

/// From a new machine on each list of commands, one party at a time, is a list of its acts, where each may begin wherever those before it
/// have led: a party begins a call or ends user code, and goes on, told what it is to be told, until it rests.
pub fn commands_are_acts()
    ensures { (limit : ℕ) (kind : Kind) (parties : ℕ) (commands : List Command) → MayFollow commands (start limit kind parties)
        → AreMade (start limit kind parties) commands }
{}
