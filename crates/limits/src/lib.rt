//! Which of refusals 1, 2 and 3 a device record gets. Any record gets an answer, whatever its counts say.
#![tactic(auto)]

ghost use Rattle.std.specs.Prelude.{◌≡◌, ℕ, map, cond, Ok, Err};
ghost use Rattle.common.specs.Refusals.{unless};
ghost use Rattle.common.specs.Lists.{every, none_twice};
ghost use Rattle.limits.specs.Limits.{packet_fine, endpoint_fine, list_fine, layout_fine, language_fine, languages_fine, lowest};

use common::Refusal;
use plan::{ENDPOINTS, Endpoint, INTERFACES, Plan};
use record::{LANGUAGES, Language, Record, UNITS};

/// The most power of a good record, in units of 2 mA: 500 mA is the most that a device may draw.
pub const POWER: u8 = 250;

/// The most bytes of a packet of endpoints 1 to 15.
pub const SIZE: u8 = 64;

// What is told apart by a number. (The words of `strings` are another trait: a UTF-16 unit is one, and no key.)
trait Keyed {
    ghost key: { Self → ℕ };

    fn key(&self) -> u16
        ensures { result ≡ key self.now };
}

impl Keyed for Endpoint {
    ghost use Rattle.limits.specs.Limits.{address_of};

    ghost key = { address_of };

    fn key(&self) -> u16 {
        self.address.0 as u16
    }
}

impl Keyed for Language {
    ghost use Rattle.limits.specs.Limits.{id_of};

    ghost key = { id_of };

    fn key(&self) -> u16 {
        self.id
    }
}

/// Refuses a record with the lowest number of which it breaks the rule: 1 for the packet size, 2 for power, interfaces or
/// endpoints, 3 for languages or strings.
pub fn check(profile: &Record) -> Result<(), Refusal>
    ensures { result ≡ unless (lowest profile.now) tt }
{
    require(packet_fine(profile.plan.basics.packet), Refusal::PacketSize)?;
    require(layout_fine(&profile.plan), Refusal::Layout)?;
    require(languages_fine(profile), Refusal::Languages)
}

fn require(fine: bool, refusal: Refusal) -> Result<(), Refusal>
    ensures { result ≡ cond fine (Ok tt) (Err refusal) }
{
    if fine { Ok(()) } else { Err(refusal) }
}

#[tactic(auto, unfolding(common::specs::Lists::member))]
fn packet_fine(size: u8) -> bool
    ensures { result ≡ packet_fine size }
{
    matches!(size, 8 | 16 | 32 | 64)
}

fn layout_fine(plan: &Plan) -> bool
    ensures { result ≡ layout_fine plan.now }
{
    let interfaces = plan.interfaces.count;
    let n = plan.endpoints.count as usize;
    plan.basics.power <= POWER
        && 1 <= interfaces
        && interfaces as usize <= INTERFACES
        && n <= ENDPOINTS
        && endpoints_fine(&plan.endpoints.list[..n], interfaces)
}

fn endpoint_fine(e: &Endpoint, interfaces: u8) -> bool
    ensures { result ≡ endpoint_fine interfaces e.now }
{
    let number = e.address.0 % 128;
    e.interface < interfaces && 1 <= number && number <= 15 && 1 <= e.size && e.size <= SIZE
}

fn endpoints_fine(list: &[Endpoint], interfaces: u8) -> bool
    ensures { result ≡ list_fine interfaces list.now }
{
    none_twice(list) && list.iter().all(|e| endpoint_fine(e, interfaces))
}

fn languages_fine(profile: &Record) -> bool
    ensures { result ≡ languages_fine profile.now.plan.languages profile.now.languages }
{
    let n = profile.plan.languages as usize;
    n <= LANGUAGES && none_twice(&profile.languages[..n]) && texts_fine(&profile.languages[..n])
}

// Each string of each language is none, or not too long.
fn texts_fine(list: &[Language]) -> bool
    ensures { result ≡ every language_fine list.now }
{
    list.iter().all(language_fine)
}

fn language_fine(language: &Language) -> bool
    ensures { result ≡ language_fine language.now }
{
    language
        .names
        .iter()
        .all(|text| text.len as usize <= UNITS + 1)
}

// No key stands twice.
fn none_twice<T: Keyed>(list: &[T]) -> bool
    ensures { result ≡ none_twice (map T.Keyed.key list.now) }
{
    let mut rest = list;
    // each is compared with those behind it, which no `for` over the list gives
    while let [first, others @ ..] = rest {
        let key = first.key();
        if others.iter().any(|x| key == x.key()) {
            return false;
        }
        rest = others;
    }
    true
}
