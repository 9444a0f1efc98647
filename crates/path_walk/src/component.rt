//! The components of the texts that a walk has still to read.
ghost use Rattle.std.specs.Prelude.{◌≡◌, ◌≢◌, ◌∷◌, [], ◌<◌, ◌≤◌, ℕ, MatchOption, length};
ghost use Rattle.std.specs.Prelude.{slice_index};
ghost use Rattle.path_walk.specs.Components.{components};
ghost use Rattle.path_walk.specs.Trails.{unread_components, unread_bytes, NoneEmpty};

use arrayvec::ArrayVec;
use memchr::memchr;

/// The number of slashes at the front.
fn leading_slashes(text: &[u8]) -> usize
    ensures within { result ≤ length text.now }
    ensures before { (k : ℕ) → k < result → slice_index text.now k ≡ 47 }
    ensures found { result < length text.now → slice_index text.now result ≢ 47 }
{
    for (i, c) in text.iter().enumerate() {
        if *c != b'/' {
            return i;
        }
    }
    text.len()
}

/// The number of bytes before the first slash.
fn component_len(text: &[u8]) -> usize
    ensures within { result ≤ length text.now }
    ensures before { (k : ℕ) → k < result → slice_index text.now k ≢ 47 }
    ensures found { result < length text.now → slice_index text.now result ≡ 47 }
{
    match memchr(b'/', text) {
        Some(end) => end,
        None => text.len(),
    }
}

/// The first component of a text, and the text after it.
fn next_component<'b>(text: &'b [u8]) -> (&'b [u8], &'b [u8])
    requires { 0 < length text.now }
    ensures components { components text.now ≡ result.0.now ∷ components result.1.now }
    ensures less { length result.1.now < length text.now }
{
    let start = leading_slashes(text);
    if start == text.len() {
        return (b".", &[]);
    }
    let rest = &text[start..];
    let end = component_len(rest);
    (&rest[..end], &rest[end..])
}

/// Takes the next component of the texts that are still to be read, the last text first.
pub(crate) fn take_component<'b>(unread: &mut ArrayVec<&'b [u8], 41>) -> Option<&'b [u8]>
    requires none_empty { NoneEmpty unread.old.items }
    requires full { length unread.old.items ≤ 41 }
    ensures component { MatchOption result (unread_components unread.old.items ≡ [])
        (λ p. unread_components unread.old.items ≡ p.now ∷ unread_components unread.new.items) }
    ensures less { MatchOption result (unread.new.items ≡ [])
        (λ p. unread_bytes unread.new.items < unread_bytes unread.old.items) }
    ensures none_empty { NoneEmpty unread.new.items }
    ensures len { length unread.new.items ≤ length unread.old.items }
{
    let Some(text) = unread.pop() else {
        return None;
    };
    let (component, rest) = next_component(text);
    if !rest.is_empty() {
        unread.push(rest);
    }
    Some(component)
}
