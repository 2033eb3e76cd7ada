//! What is wrong with a command line that says no command. The program reports it.

use commands::{MOST_CONNECTIONS, MOST_LANES, MOST_PORT, MOST_REQUESTS, MOST_WORKERS};
use std::fmt;

/// A service, as it is asked for.
const SERVICE: &str = "serve --port 9092 --lanes 4 --connections 100";

/// A number that a command wants.
#[derive(Clone, Copy)]
pub enum Wanted {
    /// The number of workers after `replay --workers`.
    ReplayWorkers,
    Seed,
    Requests,
    /// The number of workers of a storm.
    StormWorkers,
    Port,
    Lanes,
    Connections,
}

impl Wanted {
    fn name(self) -> &'static str {
        match self {
            Wanted::Seed => "seed",
            Wanted::Requests => "number of requests",
            Wanted::ReplayWorkers | Wanted::StormWorkers => "number of workers",
            Wanted::Port => "port number",
            Wanted::Lanes => "number of lanes",
            Wanted::Connections => "number of connections",
        }
    }

    fn range(self) -> &'static str {
        match self {
            Wanted::Seed => "0 to 18446744073709551615",
            Wanted::Requests => "1 to 200000",
            Wanted::ReplayWorkers | Wanted::StormWorkers => "1 to 16",
            Wanted::Port => "1 to 65535",
            Wanted::Lanes => "1 to 64",
            Wanted::Connections => "1 to 65536",
        }
    }

    fn form(self) -> &'static str {
        match self {
            Wanted::ReplayWorkers => "--workers W",
            Wanted::Seed | Wanted::Requests | Wanted::StormWorkers => "storm SEED N W",
            Wanted::Port => "--port N",
            Wanted::Lanes => "--lanes L",
            Wanted::Connections => "--connections C",
        }
    }

    fn example(self) -> &'static str {
        match self {
            Wanted::ReplayWorkers => "--workers 4",
            Wanted::Seed | Wanted::Requests | Wanted::StormWorkers => "storm 7 20000 4",
            Wanted::Port | Wanted::Lanes | Wanted::Connections => SERVICE,
        }
    }

    // Whether the word is written as a number, and one that may stand here.
    fn takes(self, word: &str) -> bool {
        is_number(word)
            && match word.parse::<u64>() {
                Ok(number) => self.has(number),
                Err(_) => false,
            }
    }

    fn has(self, number: u64) -> bool {
        match self {
            Wanted::Seed => true,
            Wanted::Requests => 1 <= number && number <= u64::from(MOST_REQUESTS),
            Wanted::ReplayWorkers | Wanted::StormWorkers => 1 <= number
                && number <= u64::from(MOST_WORKERS),
            Wanted::Port => 1 <= number && number <= u64::from(MOST_PORT),
            Wanted::Lanes => 1 <= number && number <= u64::from(MOST_LANES),
            Wanted::Connections => 1 <= number && number <= u64::from(MOST_CONNECTIONS),
        }
    }
}

/// Why words say no command. It is printed as one line for standard error, with the word that is wrong and what would be right.
#[derive(Clone, Copy)]
pub enum WrongWords<'a> {
    NoCommand,
    UnknownCommand(&'a str),
    UnknownOption(&'a str),
    /// This option of a service should come after the last word.
    NoOption(&'a str),
    /// The second word stands where this option of a service should.
    OtherOption(&'a str, &'a str),
    /// A number should come after the last word.
    NoNumber(Wanted),
    /// The word isn't written as a number.
    NotANumber(Wanted, &'a str),
    OutOfRange(Wanted, &'a str),
    OneTooMany(Wanted, &'a str),
}

impl<'a> WrongWords<'a> {
    /// What is wrong with these words, which say no command.
    pub fn of(words: &'a [String]) -> WrongWords<'a> {
        match words {
            [] => WrongWords::NoCommand,
            [command, ..] if command.as_str() == "replay" => WrongWords::in_replay(words),
            [command, ..] if command.as_str() == "storm" => WrongWords::in_storm(words),
            [command, ..] if command.as_str() == "serve" => WrongWords::in_serve(words),
            [command, ..] => WrongWords::UnknownCommand(command.as_str()),
        }
    }

    fn in_replay(words: &'a [String]) -> WrongWords<'a> {
        let workers = Wanted::ReplayWorkers;
        match words {
            [_, option, ..] if option.as_str() != "--workers" => WrongWords::UnknownOption(
                option.as_str(),
            ),
            [_, _, count, ..] if !workers.takes(count.as_str()) => WrongWords::in_number(
                workers,
                count.as_str(),
            ),
            [_, _, _, word, ..] => WrongWords::OneTooMany(workers, word.as_str()),
            _ => WrongWords::NoNumber(workers),
        }
    }

    fn in_storm(words: &'a [String]) -> WrongWords<'a> {
        match words {
            [_, seed, ..] if !Wanted::Seed.takes(seed.as_str()) => WrongWords::in_number(
                Wanted::Seed,
                seed.as_str(),
            ),
            [_, _, requests, ..] if !Wanted::Requests.takes(requests.as_str()) =>
                WrongWords::in_number(Wanted::Requests, requests.as_str()),
            [_, _, _, count, ..] if !Wanted::StormWorkers.takes(count.as_str()) =>
                WrongWords::in_number(Wanted::StormWorkers, count.as_str()),
            [_, _, _, _, word, ..] => WrongWords::OneTooMany(Wanted::StormWorkers, word.as_str()),
            [_, _, _] => WrongWords::NoNumber(Wanted::StormWorkers),
            [_, _] => WrongWords::NoNumber(Wanted::Requests),
            _ => WrongWords::NoNumber(Wanted::Seed),
        }
    }

    fn in_serve(words: &'a [String]) -> WrongWords<'a> {
        for (at, option, wanted) in [
            (1, "--port", Wanted::Port),
            (3, "--lanes", Wanted::Lanes),
            (5, "--connections", Wanted::Connections),
        ] {
            match words.get(at) {
                None => return WrongWords::NoOption(option),
                Some(word) if word.as_str() != option => return WrongWords::OtherOption(
                    option,
                    word.as_str(),
                ),
                Some(_) => {}
            }
            match words.get(at + 1) {
                None => return WrongWords::NoNumber(wanted),
                Some(word) if !wanted.takes(word.as_str()) => return WrongWords::in_number(
                    wanted,
                    word.as_str(),
                ),
                Some(_) => {}
            }
        }
        match words.get(7) {
            Some(word) => WrongWords::OneTooMany(Wanted::Connections, word.as_str()),
            None => WrongWords::NoNumber(Wanted::Connections),
        }
    }

    // What is wrong with a word that isn't the number that is wanted.
    fn in_number(wanted: Wanted, word: &'a str) -> WrongWords<'a> {
        if is_number(word) {
            WrongWords::OutOfRange(wanted, word)
        } else {
            WrongWords::NotANumber(wanted, word)
        }
    }
}

impl fmt::Display for WrongWords<'_> {
    fn fmt<W: fmt::Write>(&self, f: &mut fmt::Formatter<W>) -> fmt::Result {
        match self {
            WrongWords::NoCommand => write!(
                f,
                "no command is given: write replay, replay --workers W, storm SEED N W, or serve --port N --lanes L --connections C"
            ),
            WrongWords::UnknownCommand(word) => write!(
                f,
                "{word:?} is no command: write replay, replay --workers W, storm SEED N W, or serve --port N --lanes L --connections C"
            ),
            WrongWords::UnknownOption(word) => write!(
                f,
                "{word:?} is no option: only --workers W may follow replay"
            ),
            WrongWords::NoOption(option) => write!(f, "{option} is missing: write {SERVICE}"),
            WrongWords::OtherOption(option, word) => write!(
                f,
                "{word:?} stands where {option} should: write {SERVICE}"
            ),
            WrongWords::NoNumber(wanted) => {
                let (form, name) = (wanted.form(), wanted.name());
                let (range, example) = (wanted.range(), wanted.example());
                write!(
                    f,
                    "{form} needs a {name} next, from {range}, as in {example}"
                )
            }
            WrongWords::NotANumber(wanted, word) => {
                let (name, example) = (wanted.name(), wanted.example());
                write!(
                    f,
                    "{word:?} is no {name}: write digits alone, with no sign and no leading zero, as in {example}"
                )
            }
            WrongWords::OutOfRange(wanted, word) => {
                let (name, range) = (wanted.name(), wanted.range());
                write!(f, "{word} is out of range: the {name} is from {range}")
            }
            WrongWords::OneTooMany(wanted, word) => {
                let form = wanted.form();
                write!(
                    f,
                    "{word:?} is one word too many: nothing may follow {form}"
                )
            }
        }
    }
}

// Whether the word is written as a number: digits, and no zero in front of others.
fn is_number(word: &str) -> bool {
    match word.as_bytes() {
        [] => false,
        [b'0', _, ..] => false,
        digits => digits.iter().all(|byte| byte.is_ascii_digit()),
    }
}
