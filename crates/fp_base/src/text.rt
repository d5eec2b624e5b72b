ghost use Rattle.std.specs.Prelude.{◌≡◌, ◌↔◌, IsTrue, ◌++◌, [], length, IfOk, OnOk, OnErr, MatchOption};
ghost use Rattle.std.specs.Str.{IsUtf8};

use crate::memory::NoMemory;
use std::alloc::Global;
use std::marker::Model;
use std::str;

/// UTF-8 text that contracts see as the list of its bytes.
#[derive(Drop)]
pub struct Text {
    inner: String,
}

impl Model for Text {
    ghost use Rattle.std.specs.Prelude.{List, ℕ};
    ghost use Rattle.std.specs.String.{string_bytes};

    ghost Value = { List ℕ };

    ghost view = { λ text. string_bytes text.inner };
}

impl Text {
    /// Takes no memory.
    pub fn new(alloc: Global) -> Text
        ensures { result ≡ [] }
    {
        Text {
            inner: String::new(alloc),
        }
    }

    pub fn from_str(alloc: Global, text: &str) -> Result<Text, NoMemory>
        ensures { IfOk result (λ copy. copy ≡ text.now) }
    {
        let inner = String::from_str(alloc, text)?;
        Ok(Text { inner })
    }

    /// The text of these bytes, or None where they aren't UTF-8.
    pub fn from_utf8(alloc: Global, bytes: &[u8]) -> Result<Option<Text>, NoMemory>
        ensures { IfOk result (λ read. MatchOption read (IsUtf8 bytes.now → ⊥) (λ text. (text ≡ bytes.now) × IsUtf8 bytes.now)) }
    {
        match str::from_utf8(bytes) {
            Ok(text) => Ok(Some(Text::from_str(alloc, text)?)),
            Err(_) => Ok(None),
        }
    }

    pub fn len(&self) -> usize
        ensures { result ≡ length self.now }
    {
        self.inner.len()
    }

    pub fn as_str(&self) -> &str
        ensures { result.now ≡ self.now }
    {
        self.inner.as_str()
    }

    pub fn as_bytes(&self) -> &[u8]
        ensures value { result.now ≡ self.now }
        ensures utf8 { IsUtf8 result.now }
    {
        self.inner.as_str().as_bytes()
    }

    pub fn push_str(&mut self, more: &str) -> Result<(), NoMemory>
        ensures ok { OnOk result (self.new ≡ self.old ++ more.now) }
        ensures err { OnErr result (self.new ≡ self.old) }
    {
        self.inner.push_str(more)?;
        Ok(())
    }

    pub fn same(&self, other: &Text) -> bool
        ensures { IsTrue result ↔ (self.now ≡ other.now) }
    {
        self.inner.as_str() == other.inner.as_str()
    }

    pub fn copy(&self, alloc: Global) -> Result<Text, NoMemory>
        ensures { IfOk result (λ copy. copy ≡ self.now) }
    {
        Text::from_str(alloc, self.inner.as_str())
    }
}
