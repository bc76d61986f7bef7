//! Owned text.

ghost use Rattle.std.specs.Prelude.{◌≡◌, IfOk};

use std::alloc::{AllocError, Global};
use std::marker::Model;

/// An owned UTF-8 text. Contracts see it as the list of its bytes.
#[derive(Drop)]
pub struct Text {
    content: String,
}

impl Model for Text {
    ghost use Rattle.std.specs.Prelude.{ℕ, List};

    ghost Value = { List ℕ };

    ghost use Rattle.std.specs.Prelude.{string_bytes};

    ghost view = { λ t. string_bytes t.content };
}

impl Text {
    /// The text of these bytes. It is refused only where the program is out of memory.
    pub fn from_str(alloc: Global, s: &str) -> Result<Text, AllocError>
        ensures keeps_bytes { IfOk result (λ t. t ≡ s.now) }
    {
        let content = String::from_str(alloc, s)?;
        Ok(Text { content })
    }

    /// The text as a slice.
    pub fn as_str(&self) -> &str
        ensures { result.now ≡ self.now }
    {
        self.content.as_str()
    }
}
