//! UTF-8 text that contracts see as its bytes.
ghost use Rattle.std.specs.Prelude.{◌≡◌, ◌≤◌, ◌↔◌, ◌++◌, true, length, IfOk, IsTrue, OnErr, OnOk, nat_eq};
ghost use Rattle.std.specs.List.{list_all};
ghost use Rattle.metric.specs.Text.{kept_bytes, IsKept};
ghost use Rattle.metric.specs.Plain.{is_plain};
ghost use Rattle.std.specs.Cmp.Lexicographic.{pointwise};
ghost use Rattle.std.specs.Cmp.{partial_equiv_from_equiv};
ghost use Rattle.std.specs.Cmp.Lexicographic.{nat_list_eq_equiv, nat_list_cmp_total, slice_cmp};
ghost use Rattle.std.proofs.Common.{rules};
ghost use Rattle.std.specs.Cmp.{partial_order_from_own_ties};
ghost use Rattle.std.specs.Cmp.Rules.{comparing, hashing};
ghost use Rattle.std.specs.Ordering.{nat_cmp, as_partial_cmp};
ghost use Rattle.std.specs.Hash as fed;
ghost use Rattle.std.specs.Arc.{arc_value};
ghost use Rattle.std.specs.String.{string_bytes};

use crate::in_place::{InPlace, MOST};
use crate::plain::are_plain;
use fixed_num::OutOfMemory;
use std::alloc::Global;
use std::cmp::Ordering;
use std::hash::{Hash, Hasher};
use std::marker::Model;
use std::sync::Arc;
use text_buffer::TextBuffer;

/// How a text is kept.
#[derive(Drop, Debug)]
enum Kept {
    /// In place, and plain.
    PlainShort(InPlace),
    /// In place.
    Short(InPlace),
    /// In memory that its copies share.
    Long(Arc<LongText>),
}

/// A text above 24 bytes.
#[derive(Drop, Debug)]
struct LongText {
    /// Whether it is known to be plain.
    plain: bool,
    text: String,
}

/// UTF-8 text that contracts see as its bytes. A short one takes no memory but its own; copies of a long one share its
/// bytes.
#[derive(Drop, Debug)]
pub struct Text {
    kept: Kept,
}

impl Model for Text {
    ghost use Rattle.std.specs.Prelude.{List, ℕ};
    ghost use Rattle.metric.specs.Text.{kept_bytes, IsKept};

    ghost Value = { List ℕ };

    ghost view = { λ t. kept_bytes t.kept };

    ghost invariant = { λ t. IsKept t.kept };
}

impl Text {
    /// The text of these bytes.
    #[inline(always)]
    pub fn of(alloc: Global, s: &str) -> Result<Text, OutOfMemory>
        ensures { IfOk result (λ t. t ≡ s.now) }
    {
        let plain = are_plain(s.as_bytes());
        // Names, keys and the values of tags are mostly short.
        if s.len() <= MOST {
            return Ok(Text {
                kept: short_text(plain, InPlace::of(s)),
            });
        }
        long_text(alloc, plain, s)
    }

    /// The same. A long text shares its bytes with another that is equal to it.
    #[inline(always)]
    pub fn sharing(alloc: Global, other: Option<&Text>, s: &str) -> Result<Text, OutOfMemory>
        ensures { IfOk result (λ t. t ≡ s.now) }
    {
        if Text::is_short(s) {
            return Text::of(alloc, s);
        }
        long_sharing(alloc, other, s)
    }

    /// Whether a text is so short that it takes no memory but its own: it has at most 24 bytes.
    #[inline(always)]
    pub fn is_short(s: &str) -> bool
        ensures { IsTrue result ↔ (length s.now ≤ MOST) }
    {
        s.len() <= MOST
    }

    /// The text of a string. A long one keeps the string's memory.
    pub fn of_string(alloc: Global, string: String) -> Result<Text, OutOfMemory>
        ensures { IfOk result (λ t. t ≡ string_bytes string) }
    {
        if string.len() <= MOST {
            return Text::of(alloc, string.as_str());
        }
        shared_text(alloc, false, string)
    }

    /// An equal text. It takes no memory: a long one shares its bytes with it.
    pub fn copy(&self) -> Result<Text, OutOfMemory>
        ensures { IfOk result (λ copy. copy ≡ self.now) }
    {
        let kept = match &self.kept {
            Kept::PlainShort(text) => Kept::PlainShort(text.copy()),
            Kept::Short(text) => Kept::Short(text.copy()),
            Kept::Long(text) => Kept::Long(text.clone()?),
        };
        Ok(Text { kept })
    }

    /// The text.
    pub fn as_str(&self) -> &str
        ensures { result.now ≡ self.now }
    {
        match &self.kept {
            Kept::PlainShort(text) | Kept::Short(text) => text.as_str(),
            Kept::Long(text) => text.text.as_str(),
        }
    }

    /// Appends the text. `OutOfMemory` leaves `out` as it was.
    #[inline(always)]
    pub fn append(&self, out: &mut TextBuffer) -> Result<(), OutOfMemory>
        ensures ok { OnOk result (out.new.items ≡ out.old.items ++ self.now) }
        ensures err { OnErr result (out.new.items ≡ out.old.items) }
    {
        match &self.kept {
            Kept::PlainShort(text) | Kept::Short(text) => text.append(out),
            Kept::Long(text) => append_long(text.text.as_str(), out),
        }
    }

    /// Whether the text is known to have plain bytes alone: letters, digits and `_ . - :`. A long one that was made of
    /// a string isn't looked at.
    pub fn is_known_plain(&self) -> bool
        ensures { result ≡ true → list_all is_plain self.now ≡ true }
    {
        match &self.kept {
            Kept::PlainShort(_) => true,
            Kept::Short(_) => false,
            Kept::Long(text) => text.plain,
        }
    }
}

/// Appends a long text, apart from the code of short ones.
#[inline(never)]
fn append_long(text: &str, out: &mut TextBuffer) -> Result<(), OutOfMemory>
    ensures ok { OnOk result (out.new.items ≡ out.old.items ++ text.now) }
    ensures err { OnErr result (out.new.items ≡ out.old.items) }
{
    out.extend_from_slice(text.as_bytes())?;
    Ok(())
}

/// A text that stands in place.
fn short_text(plain: bool, text: InPlace) -> Kept
    requires { plain ≡ true → list_all is_plain text ≡ true }
    ensures bytes { kept_bytes result ≡ text }
    ensures kept { IsKept result }
{
    if plain {
        Kept::PlainShort(text)
    } else {
        Kept::Short(text)
    }
}

/// A long text of these bytes, apart from the code of short ones.
#[inline(never)]
fn long_text(alloc: Global, plain: bool, s: &str) -> Result<Text, OutOfMemory>
    requires { plain ≡ true → list_all is_plain s.now ≡ true }
    ensures { IfOk result (λ t. t ≡ s.now) }
{
    shared_text(alloc, plain, String::from_str(alloc, s)?)
}

/// A long text of these bytes, which are those of another that is equal to it.
#[inline(never)]
fn long_sharing(alloc: Global, other: Option<&Text>, s: &str) -> Result<Text, OutOfMemory>
    ensures { IfOk result (λ t. t ≡ s.now) }
{
    if let Some(other) = other {
        if other.as_str() == s {
            return other.copy();
        }
    }
    Text::of(alloc, s)
}

/// A text in memory that its copies share.
fn shared_text(alloc: Global, plain: bool, text: String) -> Result<Text, OutOfMemory>
    requires { plain ≡ true → list_all is_plain (string_bytes text) ≡ true }
    ensures { IfOk result (λ t. t ≡ string_bytes text) }
{
    Ok(Text {
        kept: Kept::Long(Arc::new(alloc, LongText { plain, text })?),
    })
}

/// Whether both stand in place, alike: a quick way to find that they are equal.
fn are_kept_alike(a: &Kept, b: &Kept) -> bool
    ensures { result ≡ true → kept_bytes a.now ≡ kept_bytes b.now }
{
    match (a, b) {
        (Kept::PlainShort(a) | Kept::Short(a), Kept::PlainShort(b) | Kept::Short(b)) => {
            a.is_kept_as(b)
        }
        _ => false,
    }
}

impl PartialEq for Text {
    ghost eq = { pointwise nat_eq };

    ghost laws = { partial_equiv_from_equiv nat_list_eq_equiv };

    fn eq(&self, other: &Self) -> bool {
        are_kept_alike(&self.kept, &other.kept) || self.as_str() == other.as_str()
    }
}

impl Eq for Text {
    ghost laws = { nat_list_eq_equiv };
}

impl Ord for Text {
    ghost cmp = { slice_cmp nat_cmp };

    ghost total = { nat_list_cmp_total };

    ghost matches_partial_cmp = { Prim.search (comparing, rules) };

    ghost matches_eq = { Prim.search (comparing, rules) };

    fn cmp(&self, other: &Self) -> Ordering {
        self.as_str().cmp(other.as_str())
    }
}

impl PartialOrd for Text {
    ghost partial_cmp = { as_partial_cmp (slice_cmp nat_cmp) };

    ghost laws = { partial_order_from_own_ties
        (Prim.search (comparing, rules)) (Prim.search (comparing, rules)) };

    fn partial_cmp(&self, other: &Self) -> Option<Ordering> {
        Some(self.cmp(other))
    }
}

impl Hash for Text {
    ghost hash_input = { λ t. fed.str t };

    ghost respects_eq = { Prim.search (hashing, rules) };

    fn hash<H: Hasher>(&self, state: &mut H) {
        self.as_str().hash(state);
    }
}
