ghost use Rattle.std.specs.Prelude.{◌≡◌, ◌≢◌, ◌<◌, ◌^◌, ◌⊎◌, ◌↔◌, ℕ, List, Option, None, Some, length, map, vec_len};
ghost use Rattle.std.specs.Io.KnownBytes.{Appends};
ghost use Rattle.edge_outside.specs.Faults.{Rose};
ghost use Rattle.edge_main.specs.Statuses.{said_of};
ghost use Rattle.edge_main.specs.Commands.{command_in, IsFew};
ghost use Rattle.edge_main.specs.Ended.{IsJudged, TookInput, Says, EndsBy, AnswersBy, IsComplete};

use crate::checking::check_input;
use crate::commands::{Command, command_of};
use crate::making::make_trace;
use crate::replay::replay_input;
use crate::statuses::Status;
use crate::trial::try_trace;
use edge_outside::{Sink, Source, write_all};
use std::alloc::Global;
use std::hash::RandomState;

/// Tells the operator how a run ended; a fault of this changes nothing.
pub fn tell<E: Sink>(status: Status, said: &mut E)
    ensures { Says E.faults E.got said.old said.new (said_of status) }
{
    let _ = write_all(said, status.said());
}

/// Runs a command.
fn run_command<S: Source, K: Sink>(
    alloc: Global,
    command: Command,
    hashers: Vec<RandomState>,
    input: &mut S,
    out: &mut K,
) -> Status
    requires hashers { vec_len hashers ≡ 64 }
    requires few { IsFew command }
    ensures ended { EndsBy (Some command) S.left K.got result input.old out.old out.new }
    ensures answered { AnswersBy (Some command) S.left K.faults K.got result input.old input.new out.old out.new }
    ensures read { result ≡ Status.ReadFault → Rose (S.faults input.old) (S.faults input.new) }
    ensures input_kept { result ≢ Status.ReadFault → S.faults input.new ≡ S.faults input.old }
    ensures write { result ≡ Status.WriteFault → Rose (K.faults out.old) (K.faults out.new) }
    ensures out_kept { IsJudged result → K.faults out.new ≡ K.faults out.old }
    ensures took { TookInput (S.left input.old) (S.left input.new) (S.taken input.old) (S.taken input.new) result }
    ensures plain { (result ≢ Status.Usage) × (result ≢ Status.AcceptFault) }
{
    match command {
        Command::Check => check_input(alloc, input, out),
        Command::Replay => replay_input(alloc, hashers, input, out),
        Command::Make(seed, requests) => make_trace(alloc, seed, requests, out),
        Command::Trial(seed, requests) => try_trace(alloc, seed, requests, hashers, out),
    }
}

/// Runs one command of those that wait for nobody: `check`, `replay` or `make`.
pub fn edge_quiet<S: Source, K: Sink, E: Sink>(
    alloc: Global,
    words: &[&str],
    input: &mut S,
    out: &mut K,
    said: &mut E,
    hashers: Vec<RandomState>,
) -> Status
    requires { vec_len hashers ≡ 64 }
    ensures usage { (result ≡ Status.Usage) ↔ (command_in words.now ≡ None) }
    ensures usage_kept { result ≡ Status.Usage → (input.new ≡ input.old) × (out.new ≡ out.old) }
    ensures ended { EndsBy (command_in words.now) S.left K.got result input.old out.old out.new }
    ensures answered { AnswersBy (command_in words.now) S.left K.faults K.got result input.old input.new out.old out.new }
    ensures read { result ≡ Status.ReadFault → Rose (S.faults input.old) (S.faults input.new) }
    ensures input_kept { result ≢ Status.ReadFault → S.faults input.new ≡ S.faults input.old }
    ensures write { result ≡ Status.WriteFault → Rose (K.faults out.old) (K.faults out.new) }
    ensures out_kept { IsJudged result → K.faults out.new ≡ K.faults out.old }
    ensures never { result ≢ Status.AcceptFault }
    ensures took { TookInput (S.left input.old) (S.left input.new) (S.taken input.old) (S.taken input.new) result }
    ensures said { Says E.faults E.got said.old said.new (said_of result) }
    ensures complete { IsComplete S.faults S.left K.faults result input.old input.new out.old out.new }
{
    let Some(command) = command_of(words) else {
        tell(Status::Usage, said);
        return Status::Usage;
    };
    let status = run_command(alloc, command, hashers, input, out);
    tell(status, said);
    status
}
