//! What the program says of itself, and of words that order nothing. `main` prints it.

use follower::{MOST_NUMBER, MOST_PORT, number_in};
use std::fmt;

pub const HELP: &str = "\
kafka_follower: a follower of one partition of a Kafka broker

Usage:
  kafka_follower PORT TOPIC INDEX REPLICA ROUNDS
                               copies the log of partition INDEX of TOPIC from
                               the leader at PORT of 127.0.0.1, as the follower
                               of number REPLICA, in ROUNDS requests
  kafka_follower --help or -h  prints this text
  kafka_follower --version or -V
                               prints the version

PORT is 1 to 65535, INDEX 0 to 2147483647, REPLICA 1 to 2147483647, ROUNDS 0 to
2147483647, each without sign or leading zeros. TOPIC has at most 249 bytes.

Each request asks for what follows the copy, at most 1048576 bytes but a whole
batch; where there is nothing, the leader waits half a second for it. A request
says how far the copy has come: a produce with acks all waits for that. Nothing
is taken that isn't a batch at the copy's end. The copy is kept in memory, at
most 67108864 bytes, and is gone when the program ends. In the end it prints:
  follower end OFFSET bytes BYTES
On a terminal, standard error says once a second how far the copy has come.

Exit codes:
  0  all was done and written, or the leader ended the connection between
     two replies
  1  the command line is faulty
  2  the leader's last reply is cut off, too long or not as it has to be
  3  the leader can't be dialled, or its connection failed
  4  the output can't be written
  6  out of memory

Example, beside a leader with a topic `orders 1 1`:
  kafka_follower 9092 orders 0 1 1000
";

pub const VERSION: &str = "kafka_follower 0.1.0\n";

/// What a status means, in one line, for standard error.
pub fn status_text(status: u8) -> &'static str {
    match status {
        0 => "done",
        1 => "the command line is faulty: see kafka_follower --help",
        2 => "the leader's last reply is cut off, too long or not as it has to be",
        3 => "the leader can't be dialled, or its connection failed",
        4 => "the output can't be written",
        _ => "out of memory",
    }
}

/// Why words order nothing. It is printed as one line for standard error, with the word that is wrong and what would be right.
#[derive(Clone, Copy, PartialEq, Eq)]
pub enum WrongWords<'a> {
    /// There are so many words, and not five.
    Count(usize),
    Port(&'a str),
    Topic,
    Index(&'a str),
    Replica(&'a str),
    Rounds(&'a str),
}

impl<'a> WrongWords<'a> {
    /// What is wrong with these words, which order nothing.
    pub fn of(words: &'a [String]) -> WrongWords<'a> {
        match words {
            [port, _, index, replica, rounds] => WrongWords::among(
                port.as_str(),
                index.as_str(),
                replica.as_str(),
                rounds.as_str(),
            ),
            _ => WrongWords::Count(words.len()),
        }
    }

    // The first number that is wrong, or else the topic.
    fn among(port: &'a str, index: &'a str, replica: &'a str, rounds: &'a str) -> WrongWords<'a> {
        if number_in(port, 1, MOST_PORT).is_none() {
            WrongWords::Port(port)
        } else if number_in(index, 0, MOST_NUMBER).is_none() {
            WrongWords::Index(index)
        } else if number_in(replica, 1, MOST_NUMBER).is_none() {
            WrongWords::Replica(replica)
        } else if number_in(rounds, 0, MOST_NUMBER).is_none() {
            WrongWords::Rounds(rounds)
        } else {
            WrongWords::Topic
        }
    }
}

impl fmt::Display for WrongWords<'_> {
    fn fmt<W: fmt::Write>(&self, f: &mut fmt::Formatter<W>) -> fmt::Result {
        match self {
            WrongWords::Count(count) => write!(
                f,
                "{count} words, and five are wanted, as in 9092 orders 0 1 1000"
            ),
            WrongWords::Port(word) => write!(f, "{word:?} is no port number from 1 to 65535"),
            WrongWords::Topic => write!(f, "the topic has more than 249 bytes"),
            WrongWords::Index(word) => write!(
                f,
                "{word:?} is no index of a partition from 0 to 2147483647"
            ),
            WrongWords::Replica(word) => write!(
                f,
                "{word:?} is no number of a follower from 1 to 2147483647"
            ),
            WrongWords::Rounds(word) => write!(
                f,
                "{word:?} is no number of rounds from 0 to 2147483647"
            ),
        }
    }
}
