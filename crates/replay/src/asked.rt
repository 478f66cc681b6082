// The command line.
use message::frame::COMP_ID_BYTES;
use message::vet::is_comp_id;
use std::env::{Env, FillError};
use std::str;
use wire::text::{Allowed, put_fixed};

// Room for a word.
pub(crate) const A_WORD: usize = 4096;

// What was asked for: our Comp ID in plain form, the numbers of the day, and which argument is FILE.
#[derive(Clone, Copy)]
pub(crate) struct Asked {
    pub(crate) ours: Option<[u8; COMP_ID_BYTES]>,
    pub(crate) expected: u32,
    pub(crate) own: u32,
    pub(crate) path: Option<usize>,
}

// A number of at most 32 bits, one at least, in decimal digits alone.
fn number_in(s: &[u8]) -> Option<u32> {
    if !s.iter().all(|b| b.is_ascii_digit()) {
        return None;
    }
    let n = str::from_utf8(s).ok()?.parse::<u32>().ok()?;
    if n == 0 { None } else { Some(n) }
}

// A Comp ID in plain form.
fn comp_id(text: &[u8]) -> Option<[u8; COMP_ID_BYTES]> {
    if !is_comp_id(text) {
        return None;
    }
    let mut bytes = [0u8; COMP_ID_BYTES];
    put_fixed(&mut bytes, Allowed::Ascii, COMP_ID_BYTES, text).ok()?;
    Some(bytes)
}

impl Asked {
    // One word more; a FILE's name is argument i. None where it is none of the words that are heard.
    fn hears(self, word: &[u8], i: usize) -> Option<Asked> {
        if let Some(text) = word.strip_prefix(b"comp=") {
            let ours = Some(comp_id(text)?);
            return Some(Asked { ours, ..self });
        }
        if let Some(text) = word.strip_prefix(b"expected=") {
            let expected = number_in(text)?;
            return Some(Asked { expected, ..self });
        }
        if let Some(text) = word.strip_prefix(b"own=") {
            let own = number_in(text)?;
            return Some(Asked { own, ..self });
        }
        if self.path.is_some() || word.is_empty() || word.starts_with(b"-") {
            return None;
        }
        let path = Some(i);
        Some(Asked { path, ..self })
    }
}

// The whole command line. A word need not be text, so that it is not a String.
pub(crate) fn hear(rt: &impl Env) -> Option<Asked> {
    let mut word = [0u8; A_WORD];
    let mut asked = Asked {
        ours: None,
        expected: 1,
        own: 1,
        path: None,
    };
    // No run has so many words: a proved loop ends.
    for i in 1..usize::MAX {
        match rt.arg(i, &mut word) {
            Ok(n) => asked = asked.hears(word.get(..n).unwrap_or(&word), i)?,
            Err(FillError::TooLong) => return None,
            Err(FillError::NotPresent) => break,
        }
    }
    Some(asked)
}
