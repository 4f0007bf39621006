//! The name of a buffer, as ops have it.
ghost use Rattle.std.specs.Prelude.{◌≡◌, IfOk, string_bytes};

use rd_base::Memory;
use std::alloc::Global;
use std::marker::Model;

/// A buffer's name. Contracts see it as the list of its bytes in UTF-8.
#[derive(Drop)]
pub struct BufferName {
    text: String,
}

impl Model for BufferName {
    ghost use Rattle.std.specs.Prelude.{ℕ, List, string_bytes};

    ghost Value = { List ℕ };

    ghost view = { λ s. string_bytes s.text };
}

impl BufferName {
    /// The name that a text is. It copies the text.
    pub fn from_str(alloc: Global, text: &str) -> Result<BufferName, Memory>
        ensures { IfOk result (λ name. name ≡ text.now) }
    {
        Ok(BufferName {
            text: String::from_str(alloc, text)?,
        })
    }

    /// The name as a text.
    pub fn as_str(&self) -> &str
        ensures { result.now ≡ self.now }
    {
        self.text.as_str()
    }

    /// The text that the name is.
    pub fn into_string(self) -> String
        ensures { string_bytes result ≡ self }
    {
        self.text
    }
}
