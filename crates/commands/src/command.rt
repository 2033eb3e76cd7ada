//! The commands that `run` carries out, and the words of the command line that say each of them.

ghost use Rattle.std.specs.Prelude.{◌≡◌, ◌≢◌, ◌≤◌, ◌<◌, ◌^◌, ◌∷◌, [], ◌↔◌, ℕ, codes, string_bytes, IfSome, IfNone, IsTrue};
ghost use Rattle.std.specs.Fmt.{decimal};
ghost use Rattle.commands.specs.Commands.{IsCommand, said};
ghost use Rattle.commands.specs.declared.command.Command.{Command as TheCommand};
ghost use Rattle.commands.specs.declared.command.Load.{Load as TheLoad};
ghost use Rattle.commands.specs.declared.command.Service.{Service as TheService};

use itoa::Buffer;
use link_lanes::MOST_LANES;
use storm::MOST_REQUESTS;

/// The most workers that a run may have.
pub const MOST_WORKERS: u32 = 16;

/// The greatest number of a port.
pub const MOST_PORT: u32 = 65_535;

/// The most connections that a service may accept.
pub const MOST_CONNECTIONS: u32 = 65_536;

/// A load that is to be generated and played.
#[derive(Clone, Copy, PartialEq, Eq)]
pub struct Load {
    pub seed: u64,
    pub requests: u32,
    pub workers: u32,
}

/// A service of connections.
#[derive(Clone, Copy, PartialEq, Eq)]
pub struct Service {
    /// The number under which the port is opened. Metadata names it.
    pub port: u16,
    /// How many threads serve connections.
    pub lanes: u32,
    /// How many connections are accepted.
    pub connections: u32,
}

/// What the program is asked to do.
#[derive(Clone, Copy, PartialEq, Eq)]
pub enum Command {
    /// `replay`: a trace is replayed on one thread, line by line.
    Replay,
    /// `replay --workers COUNT`: it is replayed on that many threads.
    Workers(u32),
    /// `storm SEED REQUESTS WORKERS`: a load is generated, and played on that many threads until nobody waits.
    Storm(Load),
    /// `serve --port NUMBER --lanes LANES --connections CONNECTIONS`: connections are served, with the topics that the source declares.
    Serve(Service),
}

impl Command {
    /// The command that the words say, and `None` exactly if they say none.
    pub fn of(words: &[String]) -> Option<Command>
        ensures some { IfSome result (IsCommand (said words.now)) }
        ensures none { IfNone result ((command : TheCommand) → IsCommand (said words.now) command → ⊥) }
    {
        if is_replay(words) {
            return Some(Command::Replay);
        }
        if let Some(count) = workers_in(words) {
            return Some(Command::Workers(count));
        }
        if let Some(load) = load_in(words) {
            return Some(Command::Storm(load));
        }
        Some(Command::Serve(service_in(words)?))
    }
}

fn is_replay(words: &[String]) -> bool
    ensures { IsTrue result ↔ (said words.now ≡ codes "replay" ∷ []) }
{
    match words {
        [word] => word.as_str() == "replay",
        _ => false,
    }
}

// The number of workers with which a trace is to be replayed.
fn workers_in(words: &[String]) -> Option<u32>
    ensures some { IfSome result (λ count. IsCommand (said words.now) (TheCommand.Workers count)) }
    ensures none { IfNone result ((count : ℕ) → IsCommand (said words.now) (TheCommand.Workers count) → ⊥) }
{
    match words {
        [word, option, count] if word.as_str() == "replay" && option.as_str() == "--workers" =>
            number_to(count.as_str(), MOST_WORKERS),
        _ => None,
    }
}

// The load that is to be played.
fn load_in(words: &[String]) -> Option<Load>
    ensures some { IfSome result (λ load. IsCommand (said words.now) (TheCommand.Storm load)) }
    ensures none { IfNone result ((load : TheLoad) → IsCommand (said words.now) (TheCommand.Storm load) → ⊥) }
{
    match words {
        [word, seed, requests, workers] if word.as_str() == "storm" => Some(Load {
            seed: number(seed.as_str())?,
            requests: number_to(requests.as_str(), MOST_REQUESTS)?,
            workers: number_to(workers.as_str(), MOST_WORKERS)?,
        }),
        _ => None,
    }
}

// The service that is asked for.
fn service_in(words: &[String]) -> Option<Service>
    ensures some { IfSome result (λ service. IsCommand (said words.now) (TheCommand.Serve service)) }
    ensures none { IfNone result ((service : TheService) → IsCommand (said words.now) (TheCommand.Serve service) → ⊥) }
{
    match words {
        [word, first, port, second, lanes, third, connections] if word.as_str() == "serve" => Some(
            Service {
                port: number_after("--port", first, port, MOST_PORT)? as u16,
                lanes: number_after("--lanes", second, lanes, MOST_LANES)?,
                connections: number_after("--connections", third, connections, MOST_CONNECTIONS)?,
            },
        ),
        _ => None,
    }
}

// The number from 1 to `most` that the word says, which stands after the option of this name.
fn number_after(name: &str, option: &String, word: &String, most: u32) -> Option<u32>
    ensures some { IfSome result (λ number. (string_bytes option.now ≡ name.now) × (string_bytes word.now ≡ decimal number)) }
    ensures in_range { IfSome result (λ number. (1 ≤ number) × (number ≤ most)) }
    ensures none { IfNone result ((number : ℕ) → 1 ≤ number → number ≤ most → string_bytes option.now ≡ name.now
        → string_bytes word.now ≢ decimal number) }
{
    if option.as_str() != name {
        return None;
    }
    number_to(word.as_str(), most)
}

// The number that the word says. A number has one spelling, without sign or leading zeros.
fn number(word: &str) -> Option<u64>
    ensures some { IfSome result (λ number. word.now ≡ decimal number) }
    ensures none { IfNone result ((number : ℕ) → number < 2 ^ 64 → word.now ≢ decimal number) }
{
    let Ok(number) = word.parse::<u64>() else {
        return None;
    };
    if Buffer::new().format(number) == word {
        Some(number)
    } else {
        None
    }
}

// The number from 1 to `most` that the word says.
fn number_to(word: &str, most: u32) -> Option<u32>
    ensures some { IfSome result (λ number. word.now ≡ decimal number) }
    ensures in_range { IfSome result (λ number. (1 ≤ number) × (number ≤ most)) }
    ensures none { IfNone result ((number : ℕ) → 1 ≤ number → number ≤ most → word.now ≢ decimal number) }
{
    let number = number(word)?;
    if number == 0 || u64::from(most) < number {
        return None;
    }
    Some(number as u32)
}
