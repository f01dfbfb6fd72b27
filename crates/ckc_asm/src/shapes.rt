//! The shapes of the words after a name.
ghost use Rattle.std.specs.Prelude.{◌≡◌, ◌∷◌, [], None, Some, MatchOption};
ghost use Rattle.ckc_asm.specs.code.Rows.{texts_of};
ghost use Rattle.ckc_asm.specs.code.Found.{is_sign, one, two, three, based};

use crate::spots::Spot;

/// The only word.
pub fn one<'a>(words: &[Spot<'a>]) -> Option<&'a [u8]>
    ensures { MatchOption result (one (texts_of words.now) ≡ None)
        (λ a. one (texts_of words.now) ≡ Some a.now) }
{
    if words.len() == 1 {
        Some(words[0].text)
    } else {
        None
    }
}

/// `a, b`
pub fn two<'a>(words: &[Spot<'a>]) -> Option<(&'a [u8], &'a [u8])>
    ensures { MatchOption result (two (texts_of words.now) ≡ None)
        (λ r. two (texts_of words.now) ≡ Some (r.0.now, r.1.now)) }
{
    if words.len() == 3 && is_sign(b',', words[1].text) {
        Some((words[0].text, words[2].text))
    } else {
        None
    }
}

/// `a, b, c`
pub fn three<'a>(words: &[Spot<'a>]) -> Option<(&'a [u8], &'a [u8], &'a [u8])>
    ensures { MatchOption result (three (texts_of words.now) ≡ None)
        (λ r. three (texts_of words.now) ≡ Some (r.0.now, r.1.now, r.2.now)) }
{
    if words.len() == 5 && is_sign(b',', words[1].text) && is_sign(b',', words[3].text) {
        Some((words[0].text, words[2].text, words[4].text))
    } else {
        None
    }
}

/// `a, b(c)`
pub fn based<'a>(words: &[Spot<'a>]) -> Option<(&'a [u8], &'a [u8], &'a [u8])>
    ensures { MatchOption result (based (texts_of words.now) ≡ None)
        (λ r. based (texts_of words.now) ≡ Some (r.0.now, r.1.now, r.2.now)) }
{
    if words.len() == 6
        && is_sign(b',', words[1].text)
        && is_sign(b'(', words[3].text)
        && is_sign(b')', words[5].text)
    {
        Some((words[0].text, words[2].text, words[4].text))
    } else {
        None
    }
}

/// Whether a word is this mark.
pub fn is_sign(mark: u8, word: &[u8]) -> bool
    ensures { result ≡ is_sign mark word.now }
{
    word.len() == 1 && word[0] == mark
}
