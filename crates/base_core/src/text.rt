ghost use Rattle.std.specs.Prelude.{◌≡◌, IfOk, MatchOption, IsUtf8, Some, refl};
ghost use Rattle.std.proofs.Common.{ap};
ghost use Rattle.std.specs.Str.{bytes_eq};
ghost use Rattle.std.specs.Ordering.{nat_cmp};
ghost use Rattle.std.specs.Cmp.{partial_equiv_from_equiv};
ghost use Rattle.std.specs.Cmp.Lexicographic.{slice_cmp, nat_list_eq_equiv, nat_list_cmp_total, texts_ties, texts_po};
ghost use Rattle.std.specs.Hash as fed;
ghost use Rattle.base_core.specs.Texts.{same_bytes};

use crate::NoMemory;
use std::alloc::Global;
use std::cmp::Ordering;
use std::hash::{Hash, Hasher};
use std::marker::Model;
use std::rc::Rc;
use std::str;

/// A text of UTF-8, seen as its bytes. Texts are ordered by their bytes. A copy shares its bytes.
#[derive(Debug, Drop)]
pub struct Text {
    text: Rc<String>,
}

impl Model for Text {
    ghost use Rattle.std.specs.Prelude.{List, ℕ, IsUtf8, string_bytes};

    ghost Value = { List ℕ };

    ghost view = { λ t. string_bytes t.text.value };

    ghost invariant = { λ t. IsUtf8 (string_bytes t.text.value) };
}

impl Text {
    /// The text of these bytes, or none where they are not UTF-8.
    pub fn from_bytes(alloc: Global, bytes: &[u8]) -> Result<Option<Text>, NoMemory>
        ensures { IfOk result (λ o. MatchOption o (¬ IsUtf8 bytes.now) (λ t. (t ≡ bytes.now) × IsUtf8 bytes.now)) }
    {
        match str::from_utf8(bytes) {
            Ok(text) => Ok(Some(Text::from_text(alloc, text)?)),
            Err(_) => Ok(None),
        }
    }

    /// A text of its own with the bytes of `text`.
    pub fn from_text(alloc: Global, text: &str) -> Result<Text, NoMemory>
        ensures { IfOk result (λ t. t ≡ text.now) }
    {
        let text = String::from_str(alloc, text)?;
        Ok(Text {
            text: Rc::new(alloc, text)?,
        })
    }

    /// The text, as Rust's own.
    pub fn as_str(&self) -> &str
        ensures { result.now ≡ self.now }
    {
        self.text.as_str()
    }

    /// Tells a proof that a text is UTF-8, and does nothing when it runs.
    pub fn is_text(&self)
        ensures { IsUtf8 self.now }
    {
        let _ = &self.text;
    }

    /// An equal text.
    pub fn copy(&self) -> Result<Text, NoMemory>
        ensures { IfOk result (λ t. t ≡ self.now) }
    {
        Ok(Text {
            text: self.text.clone()?,
        })
    }
}

impl PartialEq for Text {
    ghost eq = { bytes_eq };

    ghost laws = { partial_equiv_from_equiv nat_list_eq_equiv };

    fn eq(&self, other: &Text) -> bool {
        self.as_str() == other.as_str()
    }
}

impl Eq for Text {
    ghost laws = { nat_list_eq_equiv };
}

impl PartialOrd for Text {
    ghost partial_cmp = { λ a b. Some (slice_cmp nat_cmp a b) };

    ghost laws = { texts_po };

    fn partial_cmp(&self, other: &Text) -> Option<Ordering> {
        Some(self.cmp(other))
    }
}

impl Ord for Text {
    ghost cmp = { slice_cmp nat_cmp };

    ghost total = { nat_list_cmp_total };

    ghost matches_partial_cmp = { λ a b. refl };

    ghost matches_eq = { texts_ties };

    fn cmp(&self, other: &Text) -> Ordering {
        compare_bytes(self.as_str().as_bytes(), other.as_str().as_bytes())
    }
}

/// The order of the first bytes that differ, or of the lengths. Byte by byte, since texts of values are short.
fn compare_bytes(a: &[u8], b: &[u8]) -> Ordering
    ensures { result ≡ slice_cmp nat_cmp a.now b.now }
{
    let shared = a.len().min(b.len());
    for i in 0..shared {
        let order = a[i].cmp(&b[i]);
        if order.is_ne() {
            return order;
        }
    }
    a.len().cmp(&b.len())
}

impl Hash for Text {
    ghost hash_input = { fed.str };

    ghost respects_eq = { λ a b e. ap (λ t. fed.str t) (same_bytes a b e) };

    fn hash<H: Hasher>(&self, state: &mut H) {
        self.as_str().hash(state);
    }
}
