//! The words of a command line, and the command that they are.

ghost use Rattle.std.specs.Prelude.{◌≡◌, ◌≤◌, map, bytes_eq, decimal, IfSome};
ghost use Rattle.edge_main.specs.Commands.{is_dashed, number_of, making_of, command_named, command_in, given_by, left_in, at_end, IsPastFlag, TakesFirst, IsFew};

use itoa::Buffer;

/// The most requests that are made.
const REQUESTS_MAX: u64 = 10_000_000;

/// A command that waits for nobody.
#[derive(Clone, Copy, Debug, PartialEq, Eq)]
pub enum Command {
    Check,
    Replay,
    /// A large valid input from a seed, with so many requests, at most 10,000,000.
    Make(u64, u64),
    /// The same input, judged and summed up.
    Trial(u64, u64),
}

/// Whether a word begins with `-`.
pub fn is_dashed(word: &[u8]) -> bool
    ensures { result ≡ is_dashed word.now }
{
    match word {
        [] => false,
        [first, ..] => *first == b'-',
    }
}

/// Whether a word is what is written for a number in decimal.
fn is_written(number: u64, word: &[u8]) -> bool
    ensures { result ≡ bytes_eq word.now (decimal number) }
{
    let mut digits = Buffer::new();
    word == digits.format(number).as_bytes()
}

/// The number, at most so great, that a word is in decimal, without a sign and without zeros before it.
pub fn number_of(most: u64, word: &str) -> Option<u64>
    ensures number { result ≡ number_of most word.now }
    ensures within { IfSome result (λ number. number ≤ most) }
{
    let Ok(number) = word.parse::<u64>() else {
        return None;
    };
    if is_written(number, word.as_bytes()) && number <= most {
        Some(number)
    } else {
        None
    }
}

/// The words that are left to read.
#[derive(Clone, Copy, Debug)]
pub struct Places<'a> {
    pub words: &'a [&'a str],
    /// Whether `--` has come: each word is a place then.
    pub has_come: bool,
    /// Whether the flag `--run` has come.
    pub run: bool,
}

impl<'a> Places<'a> {
    fn new(words: &'a [&'a str]) -> Places<'a>
        ensures { left_in result ≡ given_by (map (λ word. word.now) words.now) }
    {
        Places {
            words,
            has_come: false,
            run: false,
        }
    }

    /// Passes over the flag, where it comes next for the first time.
    fn pass_flag(&mut self)
        ensures left { left_in self.new ≡ left_in self.old }
        ensures past { IsPastFlag self.new }
    {
        let [first, others @ ..] = self.words else {
            return;
        };
        if !self.has_come && !self.run && *first == "--run" {
            self.words = others;
            self.run = true;
        }
    }

    /// Takes the first place.
    fn take(&mut self) -> Option<&'a str>
        ensures { TakesFirst (left_in self.old) result (left_in self.new) }
    {
        self.pass_flag();
        let [first, others @ ..] = self.words else {
            return None;
        };
        if self.has_come || !is_dashed(first.as_bytes()) {
            self.words = others;
            return Some(*first);
        }
        if *first != "--" {
            return None;
        }
        let [second, others @ ..] = others else {
            return None;
        };
        self.words = others;
        self.has_come = true;
        Some(*second)
    }

    /// Whether the flag stands, where all places were taken.
    fn end(&mut self) -> Option<bool>
        ensures { result ≡ at_end (left_in self.old) }
    {
        self.pass_flag();
        match self.words {
            [] => Some(self.run),
            [word] if !self.has_come && *word == "--" => Some(self.run),
            [_, ..] => None,
        }
    }
}

/// The command of this name.
fn command_named(word: &[u8]) -> Option<Command>
    ensures command { result ≡ command_named word.now }
    ensures few { IfSome result IsFew }
{
    if word == b"check".as_slice() {
        Some(Command::Check)
    } else if word == b"replay".as_slice() {
        Some(Command::Replay)
    } else {
        None
    }
}

/// The making of so many requests from a seed, and with the flag their judging.
fn making_of(run: bool, seed: &str, requests: &str) -> Option<Command>
    ensures command { result ≡ making_of run seed.now requests.now }
    ensures few { IfSome result IsFew }
{
    let seed = number_of(u64::MAX, seed)?;
    let requests = number_of(REQUESTS_MAX, requests)?;
    if run {
        Some(Command::Trial(seed, requests))
    } else {
        Some(Command::Make(seed, requests))
    }
}

/// The command that the words are. Takes no memory.
pub fn command_of(words: &[&str]) -> Option<Command>
    ensures command { result ≡ command_in words.now }
    ensures few { IfSome result IsFew }
{
    let mut places = Places::new(words);
    let name = places.take()?;
    if name == "make" {
        let seed = places.take()?;
        let requests = places.take()?;
        return making_of(places.end()?, seed, requests);
    }
    if places.end()? {
        None
    } else {
        command_named(name.as_bytes())
    }
}
