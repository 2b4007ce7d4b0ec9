//! Reading the lines of an output: the steps that a request's line shows, and the line that these steps make.

use super::trace::{Asked, blocked_in};
use edge_base::{Memory, TextBuilder};
use rate_plain::{Answer, Counted};
use std::alloc::Global;

/// What `POSITION:ANSWER` says.
fn step_of(word: &str) -> Option<Counted> {
    let (position, answer) = word.split_once(":")?;
    let answer = match answer.split_once("@") {
        Some(("over", until)) => Answer::Over {
            until: until.parse::<u64>().ok()?,
        },
        None if answer == "pass" => Answer::Pass,
        _ => return None,
    };
    let position = position.parse::<u64>().ok()?;
    Some(Counted { position, answer })
}

/// The words of a line with blanks between, from the sixth on.
fn told(line: &str) -> Option<&str> {
    let mut words = line.split(" ");
    for _ in 0..5 {
        words.next();
    }
    words.next()
}

/// The steps that a request's line shows, if it shows any.
pub(super) fn steps_of(alloc: Global, line: &str) -> Result<Vec<Counted>, Memory> {
    let mut steps = Vec::new(alloc);
    let Some(told) = told(line) else {
        return Ok(steps);
    };
    for word in told.split(",") {
        if let Some(step) = step_of(word) {
            steps.push(step)?;
        }
    }
    Ok(steps)
}

fn push_step(text: &mut TextBuilder, step: &Counted) -> Result<(), Memory> {
    text.push_number(step.position)?;
    match step.answer {
        Answer::Pass => text.push(b":pass"),
        Answer::Full => text.push(b":full"),
        Answer::Over { until } => {
            text.push(b":over@")?;
            text.push_number(until)
        }
    }
}

/// Adds the steps, with commas between.
fn push_steps(text: &mut TextBuilder, steps: &[Counted]) -> Result<(), Memory> {
    for (place, step) in steps.iter().enumerate() {
        if place > 0 {
            text.push(b",")?;
        }
        push_step(text, step)?;
    }
    Ok(())
}

fn is_over(step: Option<&Counted>) -> bool {
    match step {
        Some(step) => step.answer != Answer::Pass,
        None => false,
    }
}

/// Adds what the line of the request says of its end, with these steps.
fn push_end(text: &mut TextBuilder, asked: &Asked, steps: &[Counted]) -> Result<(), Memory> {
    if asked.version > 0 && asked.path == blocked_in(asked.version) {
        text.push(b" block:403 fw/w /p")?;
        text.push_number(asked.path)?;
        return text.push(b" -");
    }
    let first_over = is_over(steps.first());
    text.push(if first_over {
        b" block:429 rl/r1 /p"
    } else {
        b" pass - /p"
    })?;
    text.push_number(asked.path)?;
    text.push(b" ")?;
    if steps.is_empty() {
        return text.push(b"-");
    }
    push_steps(text, steps)?;
    if !first_over && is_over(steps.get(1)) {
        text.push(b" log=rl/r2")?;
    }
    Ok(())
}

/// The line of the request with these steps.
pub(super) fn line_with(
    alloc: Global,
    asked: &Asked,
    steps: &[Counted],
) -> Result<TextBuilder, Memory> {
    let mut text = TextBuilder::new(alloc);
    text.push_number(asked.number)?;
    text.push(b" v")?;
    text.push_number(asked.version)?;
    push_end(&mut text, asked, steps)?;
    Ok(text)
}

/// How many steps such a request takes: none where it is blocked before, one where the first limit ends it.
pub(super) fn takes(asked: &Asked, steps: &[Counted]) -> usize {
    if asked.version == 0 || asked.path == blocked_in(asked.version) {
        0
    } else if is_over(steps.first()) {
        1
    } else {
        2
    }
}
