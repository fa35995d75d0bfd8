//! Texts that belong to a grammar. Each grammar has its own type of texts.
ghost use Rattle.std.specs.Prelude.{◌≡◌, List, ℕ, Bool, true, false, IfOk, IfErr, ◌⊎◌, refl, Some};
ghost use Rattle.std.specs.Cmp.Lexicographic.{nat_list_cmp_total, nat_list_eq_equiv, texts_po, texts_ties};
ghost use Rattle.std.specs.Cmp.{partial_equiv_from_equiv};
ghost use Rattle.room_types.specs.Texts.{text_eq, text_cmp};

use crate::fault::{OutOfMemory, TypeFault};
use std::alloc::{AllocError, Global};
use std::cmp::Ordering;
use std::fmt;
use std::marker::{Model, PhantomData};

/// A grammar: it determines which texts a `Text` can hold.
pub trait Grammar {
    ghost is_text: { List ℕ → Bool };

    /// Returns whether the text is in the grammar. Does not allocate.
    fn is_text(text: &str) -> bool
        ensures { result ≡ is_text text.now };
}

/// A text of the grammar `G`. Contracts treat a text as the list of its bytes. Texts are compared lexicographically
/// by their bytes.
#[derive(Drop)]
pub struct Text<G: Grammar> {
    text: String,
    grammar: PhantomData<G>,
}

impl<G: Grammar> Model for Text<G> {
    ghost use Rattle.std.specs.Prelude.{List, ℕ, IsTrue};
    ghost use Rattle.std.specs.String.{string_bytes};

    ghost Value = { List ℕ };

    ghost view = { λ a. string_bytes a.text };

    ghost invariant = { λ a. IsTrue (G.is_text (string_bytes a.text)) };
}

impl<G: Grammar> Text<G> {
    /// Checks the text against the grammar and copies it. Allocates only if the text is in the grammar.
    ///
    /// # Errors
    ///
    /// `BadValue` if the text is not in the grammar, and `OutOfMemory` if the allocation fails.
    pub fn read(alloc: Global, text: &str) -> Result<Self, TypeFault>
        ensures value { IfOk result (λ value. value ≡ text.now) }
        ensures in_grammar { IfOk result (λ _. G.is_text text.now ≡ true) }
        ensures fault { IfErr result (λ fault.
            ((fault ≡ TypeFault.OutOfMemory) × (G.is_text text.now ≡ true))
            ⊎ ((fault ≡ TypeFault.BadValue) × (G.is_text text.now ≡ false))) }
    {
        if !G::is_text(text) {
            return Err(TypeFault::BadValue);
        }
        let text = String::from_str(alloc, text)?;
        Ok(Text {
            text,
            grammar: PhantomData,
        })
    }

    /// Returns the text, which is in the grammar.
    pub fn as_str(&self) -> &str
        ensures text { result.now ≡ self.now }
        ensures in_grammar { G.is_text self.now ≡ true }
    {
        self.text.as_str()
    }

    /// Copies the text.
    pub fn copy(&self) -> Result<Self, OutOfMemory>
        ensures { IfOk result (λ copy. copy ≡ self.now) }
    {
        let copy = self.clone()?;
        Ok(copy)
    }
}

impl<G: Grammar> Clone for Text<G> {
    ghost is_clone = { λ x y. y ≡ x };

    fn clone(&self) -> Result<Self, AllocError> {
        let text = self.text.clone()?;
        Ok(Text {
            text,
            grammar: PhantomData,
        })
    }
}

/// Prints the same as `Display`.
impl<G: Grammar> fmt::Debug for Text<G> {
    ghost debug_output = { λ text. Some text };

    fn fmt<W: fmt::Write>(&self, f: &mut fmt::Formatter<W>) -> fmt::Result {
        fmt::Display::fmt(self, f)
    }
}

impl<G: Grammar> fmt::Display for Text<G> {
    ghost output = { λ text. Some text };

    fn fmt<W: fmt::Write>(&self, f: &mut fmt::Formatter<W>) -> fmt::Result {
        f.write_str(self.as_str())
    }
}

impl<G: Grammar> PartialEq for Text<G> {
    ghost eq = { text_eq };

    ghost laws = { partial_equiv_from_equiv nat_list_eq_equiv };

    fn eq(&self, other: &Text<G>) -> bool {
        self.as_str() == other.as_str()
    }
}

impl<G: Grammar> Eq for Text<G> {
    ghost laws = { nat_list_eq_equiv };
}

impl<G: Grammar> PartialOrd for Text<G> {
    ghost partial_cmp = { λ x y. Some (text_cmp x y) };

    ghost laws = { texts_po };

    fn partial_cmp(&self, other: &Text<G>) -> Option<Ordering> {
        Some(self.cmp(other))
    }
}

impl<G: Grammar> Ord for Text<G> {
    ghost cmp = { text_cmp };

    ghost total = { nat_list_cmp_total };

    ghost matches_partial_cmp = { λ x y. refl };

    ghost matches_eq = { texts_ties };

    fn cmp(&self, other: &Text<G>) -> Ordering {
        self.as_str().cmp(other.as_str())
    }
}
