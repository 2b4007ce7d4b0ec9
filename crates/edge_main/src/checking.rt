ghost use Rattle.std.specs.Prelude.{◌≡◌, ◌≢◌, ◌≤◌, ◌↔◌, ◌⊎◌, ◌^◌, ℕ, List, [], ◌++◌, map, length, Some, IfOk, OnOk};
ghost use Rattle.edge_outside.specs.Faults.{Rose};
ghost use Rattle.config_read.specs.Causes.{cause_name};
ghost use Rattle.ruleset_model.specs.Data.{set_data};
ghost use Rattle.edge_main.specs.Document.{kept_of};
ghost use Rattle.edge_main.specs.Checked.{IsChecked, IsTold, ok_line, refused_line, rules_in};
ghost use Rattle.edge_main.specs.CheckEnded.{ChecksAs, IsLine, rules_kept, WritesLine};
ghost use Rattle.edge_main.specs.Ended.{IsJudged, TookInput};

use crate::document::document_of;
use crate::kept::Kept;
use crate::statuses::Status;
use config_read::{Cause, ConfigFault, read_config};
use edge_base::{Memory, TextBuilder};
use edge_outside::{Failed, Sink, Source, write_all};
use ruleset_model::{Config, Ruleset};
use std::alloc::Global;

/// How many rules all rulesets have.
fn rule_count(sets: &[Ruleset]) -> u64
    requires { rules_kept sets.now ≤ 10000 }
    ensures { result ≡ rules_kept sets.now }
{
    let mut count = 0;
    for set in sets {
        count += set.rules.len() as u64;
    }
    count
}

/// Adds the line of a configuration that is taken.
fn push_ok(line: &mut TextBuilder, config: &Config) -> Result<(), Memory>
    ensures { OnOk result (line.new ≡ line.old ++ ok_line (length config.now.rulesets) (rules_kept config.now.rulesets)) }
{
    let sets = config.rulesets();
    line.push(b"ok ")?;
    line.push_number(sets.len() as u64)?;
    line.push(b" ")?;
    line.push_number(rule_count(sets))?;
    line.push(b"\n")
}

/// Adds the line of a document that is refused.
pub fn push_refused(line: &mut TextBuilder, place: &[u8], cause: Cause) -> Result<(), Memory>
    ensures { OnOk result (line.new ≡ line.old ++ refused_line place.now (cause_name cause)) }
{
    line.push(b"refused ")?;
    line.push(place)?;
    line.push(b" ")?;
    line.push(cause.name())?;
    line.push(b"\n")
}

/// Writes to an empty line what is said of a refused document, and tells how the run ends then.
fn say_fault(fault: ConfigFault, line: &mut TextBuilder) -> Result<Status, Memory>
    requires { line.old ≡ [] }
    ensures told { IfOk result (IsTold (Err fault) line.new) }
    ensures judged { IfOk result IsJudged }
{
    match fault {
        ConfigFault::Refused { place, cause } => {
            push_refused(line, place.bytes(), cause)?;
            Ok(Status::BadItems)
        }
        ConfigFault::Memory => Err(Memory),
    }
}

/// Writes to an empty line what is said of the bytes of a document, and tells how the run ends then.
fn say_bytes(alloc: Global, bytes: &[u8], line: &mut TextBuilder) -> Result<Status, Memory>
    requires { line.old ≡ [] }
    ensures checked { IfOk result (IsChecked bytes.now line.new) }
    ensures judged { IfOk result IsJudged }
{
    match read_config(alloc, bytes) {
        Ok(config) => {
            push_ok(line, &config)?;
            Ok(Status::Done)
        }
        Err(fault) => say_fault(fault, line),
    }
}

/// The same of a document of which nothing is kept where it is too long.
fn say_kept(alloc: Global, kept: &Kept, line: &mut TextBuilder) -> Result<Status, Memory>
    requires { line.old ≡ [] }
    ensures line { IfOk result (IsLine kept.now line.new) }
    ensures judged { IfOk result IsJudged }
{
    match kept.bytes() {
        Some(bytes) => say_bytes(alloc, bytes, line),
        None => {
            push_refused(line, b"/", Cause::TooLong)?;
            Ok(Status::BadItems)
        }
    }
}

/// Writes the line, and ends so; or a write fails.
fn write_line<K: Sink>(line: &TextBuilder, ended: Status, out: &mut K) -> Status
    requires { IsJudged ended }
    ensures writes { WritesLine line.now ended (K.got out.old) (K.got out.new) result }
    ensures status { IsJudged result ⊎ (result ≡ Status.WriteFault) }
    ensures write { result ≡ Status.WriteFault → Rose (K.faults out.old) (K.faults out.new) }
    ensures out_kept { result ≢ Status.WriteFault → K.faults out.new ≡ K.faults out.old }
{
    match write_all(out, line.bytes()) {
        Ok(()) => ended,
        Err(Failed) => Status::WriteFault,
    }
}

/// Reads the whole input as one configuration, and writes whether it is taken.
pub fn check_input<S: Source, K: Sink>(alloc: Global, input: &mut S, out: &mut K) -> Status
    ensures ended { ChecksAs S.left K.got result input.old out.old out.new }
    ensures read { result ≡ Status.ReadFault → Rose (S.faults input.old) (S.faults input.new) }
    ensures input_kept { result ≢ Status.ReadFault → S.faults input.new ≡ S.faults input.old }
    ensures write { result ≡ Status.WriteFault → Rose (K.faults out.old) (K.faults out.new) }
    ensures out_kept { result ≢ Status.WriteFault → K.faults out.new ≡ K.faults out.old }
    ensures took { TookInput (S.left input.old) (S.left input.new) (S.taken input.old) (S.taken input.new) result }
    ensures plain { (result ≢ Status.Usage) × (result ≢ Status.AcceptFault) × (result ≢ Status.Spent) }
{
    let kept = match document_of(alloc, input) {
        Ok(kept) => kept,
        Err(fault) => return fault.status(),
    };
    let mut line = TextBuilder::new(alloc);
    match say_kept(alloc, &kept, &mut line) {
        Ok(ended) => write_line(&line, ended, out),
        Err(Memory) => Status::Memory,
    }
}
