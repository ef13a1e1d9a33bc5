//! The TIM element (IEEE Std 802.11-2016, 9.4.2.6), read and written.

ghost use Rattle.std.specs.Prelude.{◌≡◌, ◌+◌, ◌++◌, ◌<◌, ◌≤◌, ◌^◌, ◌∷◌, ℕ, Bool, List, IsTrue, IsSome, IsSomeAnd};
ghost use Rattle.std.specs.Prelude.{IfSome, length, OnOk, OnErr};
ghost use Rattle.std.specs.FinSet as set;
ghost use Rattle.tim.specs.Tim.{ShowsTim, IsAid, SameNumbers, tim_octets};
ghost use Rattle.tim.specs.Spelling.{is_placed, is_trimmed, is_spelled};

use crate::bitmap::{BITMAP_LEN, Bitmap};
use mac_frame::{NoMemory, Octets};

/// The element ID of TIM (9.4.2.1).
pub const TIM: u8 = 5;

/// How many octets of the Information field stand before the Partial Virtual Bitmap: DTIM Count, DTIM Period and
/// Bitmap Control.
const FIELDS_LEN: u8 = 3;

/// What a TIM shows.
#[derive(Debug, Drop)]
pub struct Tim {
    /// DTIM Count: how many beacons come before the next DTIM; 0 in a DTIM.
    pub count: u8,
    /// DTIM Period: how many beacons come from one DTIM to the next.
    pub period: u8,
    /// The Traffic Indicator: whether the group has units.
    pub group: bool,
    /// The stations that have units.
    pub bits: Bitmap,
}

/// What a whole element shows (9.4.2.6): `None` if it is no TIM, if its fields don't go together, and if it is
/// a TIM in another spelling (*profile*). It takes no memory.
pub fn read_tim(element: &[u8]) -> Option<Tim>
    ensures found { IfSome result (λ tim. ShowsTim element.now tim.count tim.period tim.group (set.contains tim.bits)) }
    ensures only { (count period : ℕ) (group : Bool) (members : ℕ → Bool)
        → ShowsTim element.now count period group members
        → IsSomeAnd result (λ tim. (tim.count ≡ count) × (tim.period ≡ period) × (tim.group ≡ group)
        × SameNumbers (set.contains tim.bits) members) }
    ensures aids { IfSome result (λ tim. (n : ℕ) → IsTrue (set.contains tim.bits n) → IsAid n) }
{
    let fields = read_fields(element)?;
    let Fields {
        count,
        period,
        control,
        octets,
    } = fields;
    if !is_spelled(count, period, control, octets) {
        return None;
    }
    Some(Tim {
        count,
        period,
        group: control % 2 == 1,
        bits: Bitmap::from_octets(2 * usize::from(control / 2), octets),
    })
}

/// The Information field of a TIM, whatever stands in it.
#[derive(Clone, Copy, Debug)]
struct Fields<'a> {
    /// DTIM Count.
    count: u8,
    /// DTIM Period.
    period: u8,
    /// Bitmap Control: the Traffic Indicator in bit 0, the Bitmap Offset in the others.
    control: u8,
    /// The Partial Virtual Bitmap.
    octets: &'a [u8],
}

/// The Information field of an element whose element ID and Length are those of a TIM.
fn read_fields(element: &[u8]) -> Option<Fields<'_>>
    ensures found { IfSome result (λ f.
        element.now ≡ TIM ∷ (length f.octets.now + 3) ∷ f.count ∷ f.period ∷ f.control ∷ f.octets.now) }
    ensures only { (count period control : ℕ) (octets : List ℕ)
        → element.now ≡ TIM ∷ (length octets + 3) ∷ count ∷ period ∷ control ∷ octets → IsSome result }
{
    let [id, len, count, period, control, octets @ ..] = element else {
        return None;
    };
    if *id != TIM || usize::from(*len) != octets.len() + usize::from(FIELDS_LEN) {
        return None;
    }
    Some(Fields {
        count: *count,
        period: *period,
        control: *control,
        octets,
    })
}

/// Whether the fields of a TIM go together, and its octets are the one spelling of a set.
fn is_spelled(count: u8, period: u8, control: u8, octets: &[u8]) -> bool
    ensures { result ≡ is_spelled count period control octets.now }
{
    let first = 2 * usize::from(control / 2);
    count < period
        && (control % 2 == 0 || count == 0)
        && is_placed(first, octets)
        && is_trimmed(first, octets)
}

/// Whether there are octets, of which none stands past the last place of the virtual bitmap or has number 0.
fn is_placed(first: usize, octets: &[u8]) -> bool
    requires { first < 256 }
    ensures { result ≡ is_placed first octets.now }
{
    !octets.is_empty() && first + octets.len() <= BITMAP_LEN && (first > 0 || octets[0] % 2 == 0)
}

/// Whether the last octet isn't 0, nor the first two both, or the only one is 0 and stands at place 0.
fn is_trimmed(first: usize, octets: &[u8]) -> bool
    requires { 1 ≤ length octets.now }
    ensures { result ≡ is_trimmed first octets.now }
{
    (octets[octets.len() - 1] != 0 || (first == 0 && octets.len() == 1))
        && !(octets.len() > 1 && octets[0] == 0 && octets[1] == 0)
}

/// Appends the TIM that shows the stations `bits` as those that have units (9.4.2.6). DTIM Count and DTIM Period are
/// numbers of beacons, the count below the period. `group`, the Traffic Indicator, tells that the group has units, and
/// is true at count 0 alone. Which octets of the virtual bitmap are sent is *profile*. After `NoMemory` `out` is as it
/// was.
pub fn write_tim(
    out: &mut Octets,
    count: u8,
    period: u8,
    group: bool,
    bits: &Bitmap,
) -> Result<(), NoMemory>
    requires count { count < period }
    requires group { IsTrue group → count ≡ 0 }
    ensures ok { OnOk result (out.new ≡ out.old ++ tim_octets count period group (set.contains bits.now)) }
    ensures shows { ShowsTim (tim_octets count period group (set.contains bits.now))
        count period group (set.contains bits.now) }
    ensures err { OnErr result (out.new ≡ out.old) }
{
    let (offset, octets) = bits.partial();
    let control = 2 * offset + u8::from(group);
    let len = out.as_slice().len();
    out.append(&[TIM, octets.len() as u8 + FIELDS_LEN, count, period, control])?;
    let written = out.append(octets);
    out.roll_back(len, written)
}

/// A set is shown by exactly one string, and a string shows one count, period, group and set at most (9.4.2.6).
pub fn one_tim()
    ensures shows { (count period : ℕ) (group : Bool) (members : ℕ → Bool) → count < period → period < 2 ^ 8
        → (IsTrue group → count ≡ 0) → ShowsTim (tim_octets count period group members) count period group members }
    ensures string { (t u : List ℕ) (count period : ℕ) (group : Bool) (members : ℕ → Bool)
        → ShowsTim t count period group members → ShowsTim u count period group members → t ≡ u }
    ensures values { (t : List ℕ) (count count' period period' : ℕ) (group group' : Bool) (members members' : ℕ → Bool)
        → ShowsTim t count period group members → ShowsTim t count' period' group' members'
        → (count ≡ count') × (period ≡ period') × (group ≡ group') × SameNumbers members members' }
    ensures same { (count period : ℕ) (group : Bool) (members others : ℕ → Bool) → SameNumbers members others
        → tim_octets count period group members ≡ tim_octets count period group others }
{}
