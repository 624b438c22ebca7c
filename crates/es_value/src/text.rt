//! Texts of a script.

ghost use Rattle.std.specs.Prelude.{◌≡◌, IfOk, IsTrue, ◌↔◌, ◌≢◌, true};
ghost use Rattle.std.specs.Cmp.Rules.{comparing};
ghost use Rattle.std.specs.Str.{bytes_eq};
ghost use Rattle.std.proofs.Common.{rules};
ghost use Rattle.es_value.specs.Spelling.{is_text};

use crate::NoMemory;
use crate::spelling::spells_text;
use std::alloc::Global;
use std::marker::Model;
use std::sync::ArcStr;

/// A text of a script: printable ASCII without `"` and `\`, 0 to 256 bytes.
#[derive(Debug)]
pub struct Text {
    chars: ArcStr,
}

impl Drop for Text {
    #[inline(always)]
    fn drop(self) {
        let Text { chars: _ } = self;
    }
}

impl Model for Text {
    ghost use Rattle.std.specs.Prelude.{ℕ, List, IsTrue};
    ghost use Rattle.std.specs.Arc.{arc_str_bytes};
    ghost use Rattle.es_value.specs.Spelling.{is_text};

    ghost Value = { List ℕ };

    ghost view = { λ t. arc_str_bytes t.chars };

    ghost invariant = { λ t. IsTrue (is_text (arc_str_bytes t.chars)) };
}

/// Why no text was read.
#[derive(Clone, Copy, Debug, PartialEq, Eq)]
pub enum TextFault {
    /// It has a byte that no text of a script has, or more than 256 bytes.
    BadText,
    /// There was no memory for it.
    NoMemory,
}

impl Text {
    /// The text with these characters, or `BadText` exactly where no text of a script has them.
    ///
    /// It takes memory for them, and answers `NoMemory` where there is none.
    pub fn read(alloc: Global, text: &str) -> Result<Text, TextFault>
        ensures ok { IfOk result (λ t. t ≡ text.now) }
        ensures only { IfOk result (λ t. IsTrue (is_text text.now)) }
        ensures bad { (result ≡ Err TextFault.BadText) ↔ (is_text text.now ≢ true) }
    {
        if !spells_text(text.as_bytes()) {
            return Err(TextFault::BadText);
        }
        match ArcStr::from_str(alloc, text) {
            Ok(chars) => Ok(Text { chars }),
            Err(_) => Err(TextFault::NoMemory),
        }
    }

    /// Its characters, of which there are 0 to 256.
    pub fn as_str(&self) -> &str
        ensures same { result.now ≡ self.now }
        ensures spelled { IsTrue (is_text self.now) }
    {
        self.chars.as_str()
    }

    /// The same text again: it shares the characters and takes no memory. An error only where they
    /// have more owners than can be counted.
    pub fn copy(&self) -> Result<Text, NoMemory>
        ensures { IfOk result (λ t. t ≡ self.now) }
    {
        let chars = self.chars.clone()?;
        Ok(Text { chars })
    }
}

impl PartialEq for Text {
    ghost eq = { λ a b. bytes_eq a b };

    ghost laws = { Prim.search (comparing, rules) };

    fn eq(&self, other: &Text) -> bool {
        self.as_str() == other.as_str()
    }
}

impl Eq for Text {
    ghost laws = { Prim.search (comparing, rules) };
}
