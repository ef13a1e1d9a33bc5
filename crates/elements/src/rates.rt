//! Rates, in two elements (IEEE Std 802.11-2016, 9.4.2.3 and 9.4.2.13): whether a body has one, and those of a network.

ghost use Rattle.std.specs.Prelude.{◌≡◌, ◌++◌, ◌≤◌, length, option_map, OnOk, OnErr};
ghost use Rattle.elements.specs.Rates.{units_of, is_rate_among, is_in_element, has_rate, supported_rates};
ghost use Rattle.elements.specs.Rates.{extended_rates, rates_of};

use crate::element::{EXTENDED_SUPPORTED_RATES, Elements, SUPPORTED_RATES, write_element};
use mac_frame::{NoMemory, Octets};

/// Bit 7 of a rate, which is 1 for a basic rate; the bits below it are units of 500 kb/s (9.4.2.3).
pub const BASIC_RATE: u8 = 0x80;

/// How many rates stand in Supported Rates; those after them stand in Extended Supported Rates (9.4.2.3).
const MAX_SUPPORTED_RATES: usize = 8;

impl Elements<'_> {
    /// Whether a rate stands in the first Supported Rates or Extended Supported Rates (9.4.2.3, 9.4.2.13), basic or
    /// not. Which of several elements counts is *profile*. It takes no memory.
    pub fn has_rate(&self, rate: u8) -> bool
        ensures { result ≡ has_rate rate self.now }
    {
        is_in_element(rate, self.first(SUPPORTED_RATES))
            || is_in_element(rate, self.first(EXTENDED_SUPPORTED_RATES))
    }
}

/// Whether a rate is among those of an element, if there is one.
fn is_in_element(rate: u8, element: Option<&[u8]>) -> bool
    ensures { result ≡ is_in_element rate (option_map (λ rates. rates.now) element.entry) }
{
    element.is_some_and(|rates| is_rate_among(rate, rates))
}

/// Whether a rate is among these, each basic or not (9.4.2.3). It takes any octets and no memory.
pub fn is_rate_among(rate: u8, rates: &[u8]) -> bool
    ensures { result ≡ is_rate_among rate rates.now }
{
    rates.iter().any(|other| units_of(*other) == units_of(rate))
}

/// A rate in units of 500 kb/s without the bit that marks a basic rate (9.4.2.3): 0 to 127. It takes any octet.
pub fn units_of(rate: u8) -> u8
    ensures { result ≡ units_of rate }
{
    rate % BASIC_RATE
}

/// Appends the first eight rates in Supported Rates, or all if there are fewer (9.4.2.3). After `NoMemory` `out` is
/// as it was.
#[inline(always)]
pub fn write_supported_rates(out: &mut Octets, rates: &[u8]) -> Result<(), NoMemory>
    ensures ok { OnOk result (out.new ≡ out.old ++ supported_rates rates.now) }
    ensures err { OnErr result (out.new ≡ out.old) }
{
    let (first, _) = rates.split_at(rates.len().min(MAX_SUPPORTED_RATES));
    write_element(out, SUPPORTED_RATES, first)
}

/// Appends the rates after the eighth, if there are any, in Extended Supported Rates (9.4.2.13), of at most 16 rates in
/// all (*profile*). After `NoMemory` `out` is as it was.
#[inline(always)]
pub fn write_extended_rates(out: &mut Octets, rates: &[u8]) -> Result<(), NoMemory>
    requires { length rates.now ≤ 16 }
    ensures ok { OnOk result (out.new ≡ out.old ++ extended_rates rates.now) }
    ensures err { OnErr result (out.new ≡ out.old) }
{
    let (_, others) = rates.split_at(rates.len().min(MAX_SUPPORTED_RATES));
    if others.is_empty() {
        return Ok(());
    }
    write_element(out, EXTENDED_SUPPORTED_RATES, others)
}

/// Appends the 1 to 16 rates of a network (*profile*): the first eight in Supported Rates, the rest, if any, in
/// Extended Supported Rates (9.4.2.3, 9.4.2.13). After `NoMemory` `out` is as it was.
pub fn write_rates(out: &mut Octets, rates: &[u8]) -> Result<(), NoMemory>
    requires some { 1 ≤ length rates.now }
    requires few { length rates.now ≤ 16 }
    ensures ok { OnOk result (out.new ≡ out.old ++ rates_of rates.now) }
    ensures err { OnErr result (out.new ≡ out.old) }
{
    let len = out.as_slice().len();
    write_supported_rates(out, rates)?;
    let written = write_extended_rates(out, rates);
    out.roll_back(len, written)
}
