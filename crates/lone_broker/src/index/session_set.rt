//! A set of sessions in one machine word: the suspects of the index here, and the sessions that can act in the broker above.
ghost use Rattle.std.specs.Prelude.{◌≡◌, ◌≢◌, ℕ, ◌<◌, ◌≤◌, ◌↔◌, ◌⊎◌, All, Contains, IfNone, IfSome, IsTrue};
ghost use Rattle.lone_broker.specs.index.Sessions.{Has, IsLeastFrom};

use std::marker::Model;

/// How many sessions there can be. Their numbers are below it.
pub const SESSIONS: u32 = kbytes::MOST_SESSIONS;

/// A set of sessions. A contract sees a number whose bits are the members.
#[derive(Clone, Copy)]
pub struct SessionSet {
    word: u64,
}

impl Model for SessionSet {
    ghost use Rattle.std.specs.Prelude.{ℕ};

    ghost Value = { ℕ };

    ghost view = { λ s. s.word };

    ghost inverse = { λ n. record { word = n } };
}

impl SessionSet {
    /// The empty set.
    pub fn none() -> SessionSet
        ensures { (session : ℕ) → ¬ Has result session }
    {
        SessionSet { word: 0 }
    }

    /// Adds a session to the set.
    pub fn insert(&mut self, session: u32)
        requires { session < SESSIONS }
        ensures { (other : ℕ) → Has self.new other ↔ (Has self.old other ⊎ (other ≡ session)) }
    {
        self.word |= 1 << session;
    }

    /// Removes a session from the set.
    pub fn remove(&mut self, session: u32)
        requires { session < SESSIONS }
        ensures { (other : ℕ) → Has self.new other ↔ (Has self.old other × (other ≢ session)) }
    {
        self.word &= !(1 << session);
    }

    /// Adds a session to the set if it is to be a member, and removes it otherwise.
    pub(crate) fn put(&mut self, session: u32, is_member: bool)
        requires { session < SESSIONS }
        ensures same { Has self.new session ↔ IsTrue is_member }
        ensures others { (other : ℕ) → other ≢ session → Has self.new other ↔ Has self.old other }
    {
        if is_member {
            self.insert(session);
        } else {
            self.remove(session);
        }
    }

    /// Whether a session is in the set.
    pub fn has(&self, session: u32) -> bool
        requires { session < SESSIONS }
        ensures { IsTrue result ↔ Has self.now session }
    {
        (self.word >> session) & 1 == 1
    }

    /// The least session of the set, and `None` exactly if the set is empty.
    pub fn least(&self) -> Option<u32>
        ensures found { IfSome result (λ session. IsLeastFrom self.now 0 session) }
        ensures within { IfSome result (λ session. session < SESSIONS) }
        ensures none { IfNone result ((session : ℕ) → ¬ Has self.now session) }
    {
        self.least_from(0)
    }

    /// The least session of the set that is at least `from`, and `None` exactly if there is none.
    pub fn least_from(&self, from: u32) -> Option<u32>
        ensures found { IfSome result (λ session. IsLeastFrom self.now from session) }
        ensures within { IfSome result (λ session. session < SESSIONS) }
        ensures none { IfNone result ((session : ℕ) → from ≤ session → ¬ Has self.now session) }
    {
        let word = self.word;
        if from >= SESSIONS {
            return None;
        }
        let rest = word >> from;
        if rest == 0 {
            return None;
        }
        Some(from + rest.trailing_zeros())
    }

    /// Adds sessions to the set.
    pub(crate) fn insert_all(&mut self, sessions: &[u32])
        requires { All (λ session. session < SESSIONS) sessions.now }
        ensures { (other : ℕ) → Has self.new other ↔ (Has self.old other ⊎ Contains sessions.now other) }
    {
        for i in 0..sessions.len() {
            self.insert(sessions[i]);
        }
    }
}
