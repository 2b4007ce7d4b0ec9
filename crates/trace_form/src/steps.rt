ghost use Rattle.std.specs.Prelude.{◌≡◌, ◌++◌, OnOk, OnErr};
ghost use Rattle.std.specs.Io.{StartsWith};
ghost use Rattle.trace_form.specs.Line.{answer_text, step_text, steps_text, counts_text};

use edge_base::{Memory, TextBuilder};
use rate_plain::{Answer, Counted};

/// What a step was told.
fn push_answer(out: &mut TextBuilder, answer: Answer) -> Result<(), Memory>
    ensures ok { OnOk result (out.new ≡ out.old ++ answer_text answer) }
    ensures err { OnErr result (StartsWith out.new out.old) }
{
    match answer {
        Answer::Pass => out.push(b"pass"),
        Answer::Over { until } => {
            out.push(b"over@")?;
            out.push_number(until)
        }
        Answer::Full => out.push(b"full"),
    }
}

/// A step: its place in the history, and what it was told.
fn push_step(out: &mut TextBuilder, counted: Counted) -> Result<(), Memory>
    ensures ok { OnOk result (out.new ≡ out.old ++ step_text counted) }
    ensures err { OnErr result (StartsWith out.new out.old) }
{
    out.push_number(counted.position)?;
    out.push(b":")?;
    push_answer(out, counted.answer)
}

/// More steps, each after a comma.
fn push_steps(out: &mut TextBuilder, counts: &[Counted]) -> Result<(), Memory>
    ensures ok { OnOk result (out.new ≡ out.old ++ steps_text counts.now) }
    ensures err { OnErr result (StartsWith out.new out.old) }
{
    for &counted in counts {
        out.push(b",")?;
        push_step(out, counted)?;
    }
    Ok(())
}

/// The steps in order, or a dash.
pub(crate) fn push_counts(out: &mut TextBuilder, counts: &[Counted]) -> Result<(), Memory>
    ensures ok { OnOk result (out.new ≡ out.old ++ counts_text counts.now) }
    ensures err { OnErr result (StartsWith out.new out.old) }
{
    match counts.split_first() {
        Some((first, rest)) => {
            push_step(out, *first)?;
            push_steps(out, rest)
        }
        None => out.push(b"-"),
    }
}
