ghost use Rattle.std.specs.Prelude.{◌≡◌, ◌≢◌, ◌↔◌, None, vec_len};
ghost use Rattle.edge_outside.specs.Faults.{Rose};
ghost use Rattle.edge_main.specs.WaitCommands.{waiting_in};
ghost use Rattle.edge_main.specs.Ended.{IsJudged, TookInput, Says, IsComplete};
ghost use Rattle.edge_main.specs.SpreadEnded.{SpreadEndsAs};
ghost use Rattle.edge_main.specs.Statuses.{said_of};

use crate::quiet::tell;
use crate::spreading::spread_input;
use crate::statuses::Status;
use crate::waiting_words::waiting_of;
use edge_outside::{Clock, Listener, Origin, Sink, Source, Turnstile};
use std::alloc::Global;
use std::hash::RandomState;
use std::sync::Wait;
use std::thread::Threads;

/// Runs one command of those that wait: `replay` by several workers, each in a thread of its own. It leaves the doors and
/// the admin door as they are, and drops the origins and the clocks.
pub fn edge_wait<
    R: Threads + Wait + Sync,
    S: Source,
    K: Sink,
    E: Sink,
    L: Listener,
    O: Origin + Drop,
    C: Clock + Drop,
    T: Turnstile + Sync,
>(
    rt: &R,
    alloc: Global,
    words: &[&str],
    input: &mut S,
    out: &mut K,
    said: &mut E,
    doors: &mut Vec<L>,
    admin: &mut Option<L>,
    origins: Vec<O>,
    clocks: Vec<C>,
    turnstile: &T,
    hashers: Vec<RandomState>,
) -> Status
    requires { vec_len hashers ≡ 64 }
    ensures usage { (result ≡ Status.Usage) ↔ (waiting_in words.now ≡ None) }
    ensures usage_kept { result ≡ Status.Usage → (input.new ≡ input.old) × (out.new ≡ out.old) }
    ensures ended { SpreadEndsAs S.left K.got result input.old out.old out.new }
    ensures read { result ≡ Status.ReadFault → Rose (S.faults input.old) (S.faults input.new) }
    ensures input_kept { result ≢ Status.ReadFault → S.faults input.new ≡ S.faults input.old }
    ensures write { result ≡ Status.WriteFault → Rose (K.faults out.old) (K.faults out.new) }
    ensures out_kept { IsJudged result → K.faults out.new ≡ K.faults out.old }
    ensures never { result ≢ Status.AcceptFault }
    ensures took { TookInput (S.left input.old) (S.left input.new) (S.taken input.old) (S.taken input.new) result }
    ensures said { Says E.faults E.got said.old said.new (said_of result) }
    ensures complete { IsComplete S.faults S.left K.faults result input.old input.new out.old out.new }
    ensures doors { (doors.new ≡ doors.old) × (admin.new ≡ admin.old) }
{
    let _ = (doors.len(), admin.is_none(), origins, clocks);
    let Some(workers) = waiting_of(words) else {
        tell(Status::Usage, said);
        return Status::Usage;
    };
    let status = spread_input(rt, alloc, turnstile, workers, hashers, input, out);
    tell(status, said);
    status
}
