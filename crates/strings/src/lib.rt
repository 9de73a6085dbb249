//! The language list and the strings, written into a lent buffer at a position.
#![tactic(auto)]

ghost use Rattle.std.specs.Prelude.{◌≡◌, ℕ, ◌+◌, ◌*◌, ◌≤◌, map, length, Some, option_map, option_copied};
ghost use Rattle.common.specs.Bytes.{placed};
ghost use Rattle.record.specs.Sizes.{unit_room};
ghost use Rattle.limits.specs.Limits.{lowest};
ghost use Rattle.descriptor.specs.Writing.{Put, Wrote};
ghost use Rattle.strings.specs.Strings.{unit_bytes, text_bytes, language_of, text_of, string_of};

use common::Refusal;
use descriptor::{Written, counted, word_bytes};
use record::{Language, NAMES, Record, Text};

// What stands in a text as a word of two bytes. (The keys of `limits` are another trait: an address is one, and is no word.)
trait Word {
    ghost word: { Self → ℕ };

    fn word(&self) -> u16
        ensures { result ≡ word self.now };
}

// A UTF-16 unit.
impl Word for u16 {
    ghost word = { λ u. u };

    fn word(&self) -> u16 {
        *self
    }
}

// A language, by its identifier.
impl Word for Language {
    ghost use Rattle.limits.specs.Limits.{id_of};

    ghost word = { id_of };

    fn word(&self) -> u16 {
        self.id
    }
}

/// A string descriptor (USB 2.0 section 9.6.7) at place `at` of a lent buffer: number 0 lists the languages, 1 to 3 are the
/// names of a language, which goes by its identifier. `None` where the record has no such string.
pub fn write(profile: &Record, number: u8, language: u16, buf: &mut [u8], at: usize) -> Written
    ensures { Wrote result buf.new (lowest profile.now) (string_of profile.now number language) buf.old at }
{
    limits::check(profile)?;
    put_string(profile, number, language, buf, at)
}

fn put_string(profile: &Record, number: u8, language: u16, buf: &mut [u8], at: usize) -> Written
    ensures { Put result buf.new (string_of profile.now number language) buf.old at }
{
    let spoken = counted(&profile.languages, profile.plan.languages);
    if number == 0 {
        return put_text(spoken, buf, at);
    }
    if NAMES < number as usize {
        return Ok(None);
    }
    match find(spoken, language) {
        Some(l) => put_name(&l.names[number as usize - 1], buf, at),
        None => Ok(None),
    }
}

// The last language of an identifier; a good record has no other.
fn find(spoken: &[Language], id: u16) -> Option<&Language>
    ensures { option_copied result ≡ language_of id spoken.now }
{
    spoken.iter().rev().find(|l| l.id == id)
}

fn put_name(text: &Text, buf: &mut [u8], at: usize) -> Written
    ensures { Put result buf.new (option_map text_bytes (text_of text.now)) buf.old at }
{
    if text.len == 0 {
        return Ok(None);
    }
    put_text(counted(&text.units, text.len - 1), buf, at)
}

// Words as a descriptor.
fn put_text<T: Word>(words: &[T], buf: &mut [u8], at: usize) -> Written
    requires { length words.now ≤ unit_room }
    ensures { Put result buf.new (Some (text_bytes (map T.Word.word words.now))) buf.old at }
{
    let total = 2 + 2 * words.len();
    if !common::within(buf.len(), at, total) {
        return Err(Refusal::AnswerRoom);
    }
    common::put(&[total as u8, 3], 0, 2, buf, at);
    put_words(words, buf, at + 2);
    Ok(Some(total))
}

fn put_words<T: Word>(words: &[T], buf: &mut [u8], at: usize)
    requires { at + 2 * length words.now ≤ length buf.old }
    ensures { buf.new ≡ placed buf.old at (unit_bytes (map T.Word.word words.now)) }
{
    for (i, word) in words.iter().enumerate() {
        common::put(&word_bytes(word.word()), 0, 2, buf, at + 2 * i);
    }
}
