//! The words of a command that waits for others, and whether words may be such a command.

ghost use Rattle.std.specs.Prelude.{◌≡◌, ◌≤◌, map, option_map, cond, Some, None, IfSome, false};
ghost use Rattle.std.specs.List.{list_any};
ghost use Rattle.edge_main.specs.WaitCommands.{
  wanted_by,
  has_value,
  value_in,
  is_waiting,
  needs_wait_in,
  workers_of,
  waiting_in,
  left_in,
  at_end,
  IsPastOption,
  TakesFirst,
};

use crate::commands::{is_dashed, number_of};

/// The most workers.
const WORKERS_MAX: u64 = 64;

/// The option's name, and the front of a word that has its value too.
const OPTION: &str = "--workers";

const WITH_VALUE: &str = "--workers=";

/// The option's value in a word that has both.
fn value_behind(word: &str) -> Option<&str>
    ensures { option_map (λ value. value.now) result ≡ cond (has_value word.now) (Some (value_in word.now)) None }
{
    word.strip_prefix(WITH_VALUE)
}

/// The number of workers that a value is.
fn workers_of(value: &str) -> Option<u32>
    ensures workers { result ≡ workers_of value.now }
    ensures range { IfSome result (λ workers. (1 ≤ workers) × (workers ≤ 64)) }
{
    let workers = number_of(WORKERS_MAX, value)?;
    if workers == 0 {
        None
    } else {
        Some(workers as u32)
    }
}

/// The words that are left to read.
#[derive(Clone, Copy, Debug)]
pub struct Wanted<'a> {
    pub words: &'a [&'a str],
    /// Whether `--` has come: each word is a place then.
    pub has_come: bool,
    /// The value of the option `--workers`, where it has come.
    pub workers: Option<&'a str>,
}

impl<'a> Wanted<'a> {
    fn new(words: &'a [&'a str]) -> Wanted<'a>
        ensures { left_in result ≡ wanted_by false (map (λ word. word.now) words.now) }
    {
        Wanted {
            words,
            has_come: false,
            workers: None,
        }
    }

    /// Passes over the option with its value, where it comes next for the first time.
    fn pass_option(&mut self)
        ensures left { left_in self.new ≡ left_in self.old }
        ensures past { IsPastOption self.new }
    {
        if self.has_come || self.workers.is_some() {
            return;
        }
        match self.words {
            [name, value, others @ ..] if *name == OPTION => {
                if !is_dashed(value.as_bytes()) {
                    self.words = others;
                    self.workers = Some(*value);
                }
            }
            [word, others @ ..] => {
                if let Some(value) = value_behind(word) {
                    self.words = others;
                    self.workers = Some(value);
                }
            }
            [] => {}
        }
    }

    /// Takes the first place.
    fn take(&mut self) -> Option<&'a str>
        ensures { TakesFirst (left_in self.old) result (left_in self.new) }
    {
        self.pass_option();
        let [first, others @ ..] = self.words else {
            return None;
        };
        if self.has_come {
            self.words = others;
            return Some(*first);
        }
        if !is_dashed(first.as_bytes()) {
            self.words = others;
            return Some(*first);
        }
        if *first != "--" {
            return None;
        }
        let [second, others @ ..] = others else {
            return None;
        };
        self.words = others;
        self.has_come = true;
        Some(*second)
    }

    /// The option's value, where all places were taken.
    fn end(&mut self) -> Option<&'a str>
        ensures { option_map (λ value. value.now) result ≡ at_end (left_in self.old) }
    {
        self.pass_option();
        match self.words {
            [] => self.workers,
            [word] if !self.has_come && *word == "--" => self.workers,
            [_, ..] => None,
        }
    }
}

/// By how many workers, 1 to 64, the words want `replay`. Takes no memory.
pub fn waiting_of(words: &[&str]) -> Option<u32>
    ensures workers { result ≡ waiting_in words.now }
    ensures range { IfSome result (λ workers. (1 ≤ workers) × (workers ≤ 64)) }
{
    let mut wanted = Wanted::new(words);
    let name = wanted.take()?;
    let workers = wanted.end()?;
    if name == "replay" {
        workers_of(workers)
    } else {
        None
    }
}

/// Whether a word stands in commands that wait alone.
fn is_waiting(word: &str) -> bool
    ensures { result ≡ is_waiting word.now }
{
    word == OPTION || value_behind(word).is_some() || word == "serve"
}

/// Whether some word is one of these.
fn some_waits(words: &[&str]) -> bool
    ensures { result ≡ list_any (λ word. is_waiting word.now) words.now }
{
    words.iter().any(|word| is_waiting(word))
}

/// Whether some word is `serve` or `--workers` or begins with `--workers=`: then the words may be a command that waits, and
/// are none that waits for nobody. Takes no memory.
pub fn needs_wait(words: &[&str]) -> bool
    ensures { result ≡ needs_wait_in words.now }
{
    some_waits(words)
}
