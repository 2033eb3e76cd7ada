ghost use Rattle.std.specs.Prelude.{◌≡◌, [], ◌∷◌, ◌++◌, length, take, OnOk, OnErr, IsTrue, ◌↔◌, slice_get};
ghost use Rattle.std.specs.Option.{option_copied};
ghost use Rattle.std.specs.Borrow.{sem};

use crate::no_memory::NoMemory;
use std::alloc::Global;
use std::marker::Model;

/// Bytes that grow at their end. A contract sees the list of them.
#[derive(Drop)]
pub struct Bytes {
    bytes: Vec<u8>,
}

impl Model for Bytes {
    ghost use Rattle.std.specs.Prelude.{List, ℕ};

    ghost Value = { List ℕ };

    ghost view = { λ b. b.bytes.items };
}

impl Bytes {
    ghost use Rattle.kbytes.specs.Lends.{lends_bytes};

    /// No bytes. It takes no memory.
    pub fn new(alloc: Global) -> Bytes
        ensures { result ≡ [] }
    {
        Bytes {
            bytes: Vec::new(alloc),
        }
    }

    /// Makes room for so many more bytes at the end, so that they need no more memory there. No more than that is taken.
    pub fn reserve(&mut self, more: usize) -> Result<(), NoMemory>
        ensures { self.new ≡ self.old }
    {
        self.bytes.reserve_exact(more)?;
        Ok(())
    }

    /// Puts the part at the end.
    pub fn extend(&mut self, part: &[u8]) -> Result<(), NoMemory>
        ensures ok { OnOk result (self.new ≡ self.old ++ part.now) }
        ensures err { OnErr result (self.new ≡ self.old) }
    {
        self.bytes.extend_from_slice(part)?;
        Ok(())
    }

    // Puts two parts at the end, or neither.
    pub(crate) fn extend_twice(&mut self, front: &[u8], back: &[u8]) -> Result<(), NoMemory>
        ensures ok { OnOk result (self.new ≡ self.old ++ (front.now ++ back.now)) }
        ensures err { OnErr result (self.new ≡ self.old) }
    {
        let before = self.bytes.len();
        self.bytes.extend_from_slice(front)?;
        if let Err(refused) = self.bytes.extend_from_slice(back) {
            self.bytes.truncate(before);
            return Err(NoMemory::from(refused));
        }
        Ok(())
    }

    /// Puts one byte at the end.
    pub fn push(&mut self, byte: u8) -> Result<(), NoMemory>
        ensures ok { OnOk result (self.new ≡ self.old ++ byte ∷ []) }
        ensures err { OnErr result (self.new ≡ self.old) }
    {
        self.bytes.push(byte)?;
        Ok(())
    }

    /// Keeps the first bytes, at most this many. It takes no memory.
    pub fn truncate(&mut self, len: usize)
        ensures { self.new ≡ take len self.old }
    {
        self.bytes.truncate(len);
    }

    /// The byte at a place, counted from 0, and `None` past the end.
    pub fn get(&self, at: usize) -> Option<&u8>
        ensures { option_copied result ≡ slice_get self.now at }
    {
        self.bytes.get(at)
    }

    pub fn len(&self) -> usize
        ensures { result ≡ length self.now }
    {
        self.bytes.len()
    }

    pub fn is_empty(&self) -> bool
        ensures { IsTrue result ↔ (self.now ≡ []) }
    {
        self.bytes.is_empty()
    }

    pub fn as_slice(&self) -> &[u8]
        ensures { result.now ≡ self.now }
    {
        self.bytes.as_slice()
    }

    /// The bytes, for writing. Their number stays.
    pub fn as_mut_slice(&mut self) -> &mut [u8]
        ensures* writes_back { sem 𝓛 (lends_bytes self.entry result) }
        ensures value { result.now ≡ self.old }
    {
        self.bytes.as_mut_slice()
    }
}

/// The bytes as they are, without a copy. It takes no memory.
impl From<Vec<u8>> for Bytes {
    ghost from_gives = { λ bytes taken. taken ≡ bytes.items };

    fn from(bytes: Vec<u8>) -> Bytes {
        Bytes { bytes }
    }
}
