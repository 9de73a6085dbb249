//! The device record as bytes. specs/Layout.antt has the layout, field by field.
#![tactic(auto)]

ghost use Rattle.std.specs.Prelude.{◌≡◌, ℕ, ◌+◌, ◌*◌, ◌≤◌, ◌<◌, List, length};
ghost use Rattle.common.specs.Bytes.{placed};
ghost use Rattle.common.specs.Lists.{every};
ghost use Rattle.plan.specs.Sizes.{endpoint_room};
ghost use Rattle.record.specs.Sizes.{names, language_room, string_room, text_room};
ghost use Rattle.record_bytes.specs.Codes.{word_bytes, joined, entries};
ghost use Rattle.record_bytes.specs.Layout.{endpoint_size, word_size, text_size, language_place, length_place, unit_place, record_size, head_bytes, plan_bytes, id_bytes, length_bytes, lengths_bytes, text_bytes, texts_bytes, record_bytes, basics_of, plan_of, text_of, texts_of, language_of, record_of, endpoint_coded, same, record_coded};

use common::Coded;
use control::EndpointAddress;
use plan::{Basics, ENDPOINTS, Endpoint, INTERFACES, Interface, Kind, Plan};
use record::{LANGUAGES, Language, NAMES, Record, STRINGS, TEXT, Text, UNITS};

// The sizes, each named once: of the head, of an entry of each list, of the whole.
const HEAD: usize = 17;

const INTERFACE: usize = 3;

const ENDPOINT: usize = 5;

const WORD: usize = 2;

const UNIT_BYTES: usize = WORD * UNITS;

const TEXT_BYTES: usize = UNIT_BYTES * NAMES;

/// How many bytes a record takes.
pub const RECORD: usize = UNIT_PLACE + WORD * TEXT;

// Where each list starts.
const ENDPOINT_PLACE: usize = HEAD + INTERFACE * INTERFACES;

const LANGUAGE_PLACE: usize = ENDPOINT_PLACE + ENDPOINT * ENDPOINTS;

const LENGTH_PLACE: usize = LANGUAGE_PLACE + WORD * LANGUAGES;

const UNIT_PLACE: usize = LENGTH_PLACE + STRINGS;

// A value that stands in N bytes.
trait Entry<const N: usize>: Copy {
    ghost bytes: { Self → List ℕ };

    ghost named: { List ℕ → Self };

    fn read(s: &[u8]) -> Self
        requires { length s.now ≡ N }
        ensures { result ≡ named s.now };

    fn write(self) -> [u8; N]
        ensures { result ≡ bytes self };

    // What is written is read back.
    ghost back: { (x : Self) → named (bytes x) ≡ x };

    ghost size: { (x : Self) → length (bytes x) ≡ N };
}

impl Entry<WORD> for u16 {
    ghost use Rattle.record_bytes.specs.Codes.{word_bytes};
    ghost use Rattle.record_bytes.specs.Layout.{word_of};
    ghost use Rattle.record_bytes.specs.Entries.{word-back, word-length};

    ghost bytes = { word_bytes };

    ghost named = { word_of };

    ghost back = { word-back };

    ghost size = { word-length };

    fn read(s: &[u8]) -> u16 {
        control::word(s[0], s[1])
    }

    fn write(self) -> [u8; WORD] {
        self.to_le_bytes()
    }
}

impl Entry<INTERFACE> for Interface {
    ghost use Rattle.record_bytes.specs.Layout.{interface_bytes, interface_of};
    ghost use Rattle.record_bytes.specs.Entries.{interface-back, interface-length};

    ghost bytes = { interface_bytes };

    ghost named = { interface_of };

    ghost back = { interface-back };

    ghost size = { interface-length };

    fn read(s: &[u8]) -> Interface {
        Interface {
            class: s[0],
            subclass: s[1],
            protocol: s[2],
        }
    }

    fn write(self) -> [u8; INTERFACE] {
        [self.class, self.subclass, self.protocol]
    }
}

impl Entry<ENDPOINT> for Endpoint {
    ghost use Rattle.record_bytes.specs.Layout.{endpoint_bytes, endpoint_of};
    ghost use Rattle.record_bytes.specs.Entries.{endpoint-back, endpoint-length};

    ghost bytes = { endpoint_bytes };

    ghost named = { endpoint_of };

    ghost back = { endpoint-back };

    ghost size = { endpoint-length };

    fn read(s: &[u8]) -> Endpoint {
        Endpoint {
            address: EndpointAddress(s[0]),
            kind: Kind::of_code(s[1]),
            size: s[2],
            interval: s[3],
            interface: s[4],
        }
    }

    fn write(self) -> [u8; ENDPOINT] {
        [
            self.address.0,
            self.kind.code(),
            self.size,
            self.interval,
            self.interface,
        ]
    }
}

// The entries of a list, one behind the other.
fn read_all<T: Entry<N>, const N: usize>(s: &[u8], list: &mut [T])
    requires { length s.now ≡ N * length list.old }
    ensures { list.new ≡ entries (length list.old) N T.Entry.named s.now }
{
    for (i, x) in list.iter_mut().enumerate() {
        *x = T::read(&s[N * i..N * i + N]);
    }
}

// The same written from a place on.
fn write_all<T: Entry<N>, const N: usize>(list: &[T], dst: &mut [u8], at: usize)
    requires { at + N * length list.now ≤ length dst.old }
    ensures { dst.new ≡ placed dst.old at (joined T.Entry.bytes list.now) }
{
    for (i, x) in list.iter().enumerate() {
        let from = at + N * i;
        dst[from..from + N].copy_from_slice(&x.write());
    }
}

// ---- reading

#[tactic(auto, unfolding(crate::specs::Layout::basics_of))]
fn basics_of(s: &[u8; RECORD]) -> Basics
    ensures { result ≡ basics_of s.now }
{
    Basics {
        packet: s[0],
        class: s[1],
        subclass: s[2],
        protocol: s[3],
        vendor: control::word(s[4], s[5]),
        product: control::word(s[6], s[7]),
        release: control::word(s[8], s[9]),
        power: s[10],
        powered: s[11] == 1,
        wakeup: s[12] == 1,
        quirk: s[13] == 1,
    }
}

#[tactic(auto, unfolding(crate::specs::Layout::plan_of))]
fn plan_of(s: &[u8; RECORD]) -> Plan
    ensures { result ≡ plan_of s.now }
{
    let mut plan = Plan::new(basics_of(s));
    plan.interfaces.count = s[14];
    plan.endpoints.count = s[15];
    plan.languages = s[16];
    read_all(&s[HEAD..ENDPOINT_PLACE], &mut plan.interfaces.list);
    read_all(&s[ENDPOINT_PLACE..LANGUAGE_PLACE], &mut plan.endpoints.list);
    plan
}

// The string at a place among all of them.
fn read_text(s: &[u8; RECORD], slot: usize, text: &mut Text)
    requires { slot < string_room }
    ensures { text.new ≡ text_of slot s.now }
{
    let at = UNIT_PLACE + UNIT_BYTES * slot;
    text.len = s[LENGTH_PLACE + slot];
    read_all(&s[at..at + UNIT_BYTES], &mut text.units);
}

// The strings of the language at a place.
fn read_texts(s: &[u8; RECORD], i: usize, texts: &mut [Text; NAMES])
    requires { i < language_room }
    ensures { texts.new ≡ texts_of i s.now }
{
    for (k, text) in texts.iter_mut().enumerate() {
        read_text(s, NAMES * i + k, text);
    }
}

// The language at a place.
fn read_language(s: &[u8; RECORD], i: usize, language: &mut Language)
    requires { i < language_room }
    ensures { language.new ≡ language_of i s.now }
{
    let at = LANGUAGE_PLACE + WORD * i;
    language.id = control::word(s[at], s[at + 1]);
    read_texts(s, i, &mut language.names);
}

/// The record of bytes. A byte that is no code is read as some code: [`fine`] tells of it.
pub fn read(s: &[u8; RECORD]) -> Record
    ensures { result ≡ record_of s.now }
{
    let plan = plan_of(s);
    let mut profile = Record::new(plan);
    profile.plan.languages = plan.languages;
    for (i, language) in profile.languages.iter_mut().enumerate() {
        read_language(s, i, language);
    }
    profile
}

// ---- which bytes are a record's

fn endpoints_fine(s: &[u8]) -> bool
    requires { length s.now ≡ endpoint_size * endpoint_room }
    ensures { result ≡ every endpoint_coded (entries endpoint_room endpoint_size same s.now) }
{
    // tried with `chunks_exact` and with `Kind::Interrupt.code()`, and the proof did not close
    for i in 0..ENDPOINTS {
        if 1 < s[ENDPOINT * i + 1] {
            return false;
        }
    }
    true
}

/// Whether the bytes are what a record is written as: each flag and kind is a code.
#[tactic(auto, unfolding(crate::specs::Layout::record_coded))]
pub fn fine(s: &[u8; RECORD]) -> bool
    ensures { result ≡ record_coded s.now }
{
    s[11] <= 1 && s[12] <= 1 && s[13] <= 1 && endpoints_fine(&s[ENDPOINT_PLACE..LANGUAGE_PLACE])
}

// ---- writing

#[tactic(auto, unfolding(crate::specs::Layout::head_bytes))]
fn head(p: &Plan) -> [u8; HEAD]
    ensures { result ≡ head_bytes p.now }
{
    let b = &p.basics;
    let vendor = b.vendor.to_le_bytes();
    let product = b.product.to_le_bytes();
    let release = b.release.to_le_bytes();
    [
        b.packet,
        b.class,
        b.subclass,
        b.protocol,
        vendor[0],
        vendor[1],
        product[0],
        product[1],
        release[0],
        release[1],
        b.power,
        b.powered as u8,
        b.wakeup as u8,
        b.quirk as u8,
        p.interfaces.count,
        p.endpoints.count,
        p.languages,
    ]
}

#[tactic(auto, unfolding(crate::specs::Layout::plan_bytes))]
fn write_plan(p: &Plan, dst: &mut [u8; RECORD])
    ensures bytes { dst.new ≡ placed dst.old 0 (plan_bytes p.now) }
    ensures size { length (plan_bytes p.now) ≡ language_place }
{
    dst[..HEAD].copy_from_slice(&head(p));
    write_all(&p.interfaces.list, dst, HEAD);
    write_all(&p.endpoints.list, dst, ENDPOINT_PLACE);
}

// The parts of a language or a string that stand together: the identifiers, the lengths, the units.
struct Identifiers;

struct StringLengths;

struct StringUnits;

// A value whose part `As` stands in N bytes.
trait Part<As, const N: usize> {
    ghost part: { Self → List ℕ };

    fn put(&self, dst: &mut [u8; RECORD], at: usize)
        requires { at + N ≤ record_size }
        ensures bytes { dst.new ≡ placed dst.old at (part self.now) }
        ensures size { length (part self.now) ≡ N };
}

// These parts of a list, one behind the other, from a place on.
fn put_all<As, T: Part<As, N>, const N: usize>(list: &[T], dst: &mut [u8; RECORD], at: usize)
    requires { at + N * length list.now ≤ record_size }
    ensures bytes { dst.new ≡ placed dst.old at (joined T.Part.part list.now) }
    ensures size { length (joined T.Part.part list.now) ≡ N * length list.now }
{
    for (i, x) in list.iter().enumerate() {
        x.put(dst, at + N * i);
    }
}

impl Part<Identifiers, WORD> for Language {
    ghost use Rattle.record_bytes.specs.Layout.{id_bytes};

    ghost part = { id_bytes };

    fn put(&self, dst: &mut [u8; RECORD], at: usize) {
        dst[at..at + WORD].copy_from_slice(&self.id.write());
    }
}

impl Part<StringLengths, 1> for Text {
    ghost use Rattle.record_bytes.specs.Layout.{length_bytes};

    ghost part = { length_bytes };

    fn put(&self, dst: &mut [u8; RECORD], at: usize) {
        dst[at] = self.len;
    }
}

impl Part<StringLengths, NAMES> for Language {
    ghost use Rattle.record_bytes.specs.Layout.{lengths_bytes};

    ghost part = { lengths_bytes };

    fn put(&self, dst: &mut [u8; RECORD], at: usize) {
        put_all::<StringLengths, Text, 1>(&self.names, dst, at);
    }
}

impl Part<StringUnits, UNIT_BYTES> for Text {
    ghost use Rattle.record_bytes.specs.Layout.{text_bytes};

    ghost part = { text_bytes };

    fn put(&self, dst: &mut [u8; RECORD], at: usize) {
        write_all(&self.units, dst, at);
    }
}

impl Part<StringUnits, TEXT_BYTES> for Language {
    ghost use Rattle.record_bytes.specs.Layout.{texts_bytes};

    ghost part = { texts_bytes };

    fn put(&self, dst: &mut [u8; RECORD], at: usize) {
        put_all::<StringUnits, Text, UNIT_BYTES>(&self.names, dst, at);
    }
}

/// The bytes of a record.
pub fn write(profile: &Record) -> [u8; RECORD]
    ensures { result ≡ record_bytes profile.now }
{
    let mut d = [0; RECORD];
    write_plan(&profile.plan, &mut d);
    put_all::<Identifiers, Language, WORD>(&profile.languages, &mut d, LANGUAGE_PLACE);
    put_all::<StringLengths, Language, NAMES>(&profile.languages, &mut d, LENGTH_PLACE);
    put_all::<StringUnits, Language, TEXT_BYTES>(&profile.languages, &mut d, UNIT_PLACE);
    d
}
