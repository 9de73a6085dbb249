//! Writing a descriptor into a lent buffer at a position, and the device descriptor.
//! A record that breaks a limit is refused with 1, 2 or 3, and an answer that the room left does not take whole with 12:
//! then no byte is written.
//! What writes works on a slice and a position; the writer of crate `writer` is thin over it.
#![tactic(auto)]

ghost use Rattle.std.specs.Prelude.{◌≡◌, take, length, Some};
ghost use Rattle.record.specs.Filling.{name_of};
ghost use Rattle.limits.specs.Limits.{lowest};
ghost use Rattle.descriptor.specs.Device.{word_bytes, has, said, string_number, device_bytes};
ghost use Rattle.descriptor.specs.Writing.{Put, Wrote};

use common::Refusal;
use record::{Language, Name, Record};

/// How a call that writes a descriptor ends: so many bytes were written; `None`: there is no such string, and none was
/// written; or it was refused, by the record's own number (1, 2 or 3) or since the room left is less than the answer (12).
pub type Written = Result<Option<usize>, Refusal>;

/// How many bytes a device descriptor has.
pub const DEVICE: usize = 18;

// A whole answer, or refusal 12 and nothing.
fn put_whole(src: &[u8], buf: &mut [u8], at: usize) -> Written
    ensures { Put result buf.new (Some src.now) buf.old at }
{
    let n = src.len();
    if !common::within(buf.len(), at, n) {
        return Err(Refusal::AnswerRoom);
    }
    common::put(src, 0, n, buf, at);
    Ok(Some(n))
}

/// The entries of a list that its count tells; all where it tells more.
pub fn counted<T, const N: usize>(list: &[T; N], count: u8) -> &[T]
    ensures part { result.now ≡ take count list.now }
    ensures long { length list.now ≡ N }
{
    &list[..(count as usize).min(N)]
}

/// A word of two bytes, the low one first.
// Its clause is in the words of the definitions, which `to_le_bytes` has not.
pub fn word_bytes(word: u16) -> [u8; 2]
    ensures { result ≡ word_bytes word }
{
    word.to_le_bytes()
}

/// The device descriptor (USB 2.0 section 9.6.1) at place `at` of a lent buffer.
pub fn device(profile: &Record, buf: &mut [u8], at: usize) -> Written
    ensures { Wrote result buf.new (lowest profile.now) (Some (device_bytes profile.now)) buf.old at }
{
    limits::check(profile)?;
    put_whole(&device_bytes(profile), buf, at)
}

// Table 9-8, in its order.
fn device_bytes(profile: &Record) -> [u8; DEVICE]
    ensures { result ≡ device_bytes profile.now }
{
    let basics = &profile.plan.basics;
    let spoken = counted(&profile.languages, profile.plan.languages);
    let [vendor, vendor_high] = word_bytes(basics.vendor);
    let [product, product_high] = word_bytes(basics.product);
    let [release, release_high] = word_bytes(basics.release);
    [
        DEVICE as u8,
        1,
        0,
        2,
        basics.class,
        basics.subclass,
        basics.protocol,
        basics.packet,
        vendor,
        vendor_high,
        product,
        product_high,
        release,
        release_high,
        string_number(spoken, Name::Manufacturer),
        string_number(spoken, Name::Product),
        string_number(spoken, Name::Serial),
        1,
    ]
}

// The number of a string, 1 to 3, if any of the languages has it, else 0.
fn string_number(spoken: &[Language], name: Name) -> u8
    ensures { result ≡ string_number spoken.now (name_of name) }
{
    if said(spoken, name) {
        name as u8 + 1
    } else {
        0
    }
}

fn said(spoken: &[Language], name: Name) -> bool
    ensures { result ≡ said spoken.now (name_of name) }
{
    spoken.iter().any(|l| has(l, name))
}

fn has(language: &Language, name: Name) -> bool
    ensures { result ≡ has (name_of name) language.now }
{
    language.names[name as usize].len != 0
}
