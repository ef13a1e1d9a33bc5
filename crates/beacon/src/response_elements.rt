//! The elements of a network's probe responses (IEEE Std 802.11-2016, 9.3.3.11), which no clock changes.

ghost use Rattle.std.specs.Prelude.{◌≡◌, ◌+◌, ◌++◌, ◌≤◌, length};
ghost use Rattle.elements.specs.Elements.{element};
ghost use Rattle.elements.specs.Rates.{supported_rates, extended_rates};
ghost use Rattle.beacon.specs.Advert.{announced};
ghost use Rattle.beacon.specs.ProbeResponse.{response_elements};

use crate::advert::Advert;
use elements::{DSSS_PARAMETER_SET, EXTENDED_SUPPORTED_RATES, SSID, SUPPORTED_RATES};
use std::marker::Model;

/// The most octets of an SSID (9.4.2.2).
const MAX_SSID_LEN: usize = 32;

/// How many rates stand in Supported Rates; at most as many stand in Extended Supported Rates (9.4.2.3).
const MAX_SUPPORTED_RATES: usize = 8;

/// The most octets of the elements: SSID, Supported Rates, DSSS Parameter Set and Extended Supported Rates, each after
/// two octets of its own (9.4.2.1).
const MAX_LEN: usize = MAX_SSID_LEN + 2 * MAX_SUPPORTED_RATES + 1 + 4 * 2;

/// The elements of a network's probe responses, put together once: SSID, Supported Rates, DSSS Parameter Set, and
/// Extended Supported Rates if there are more than eight rates (9.3.3.11). Contracts see the octets.
#[derive(Debug, Drop)]
pub struct ResponseElements {
    octets: [u8; MAX_LEN],
    len: usize,
}

impl Model for ResponseElements {
    ghost use Rattle.std.specs.Prelude.{ℕ, ◌≤◌, List, take};

    ghost Value = { List ℕ };

    ghost view = { λ e. take e.len e.octets };

    ghost invariant = { λ e. e.len ≤ 57 };
}

impl ResponseElements {
    /// The elements of a network with an SSID of at most 32 octets (9.4.2.2) and at most 16 rates (*profile*), of any
    /// clock and sequence number. It takes no memory.
    #[tactic(auto, unfolding(crate::specs::Advert::network_elements))]
    pub fn new(advert: &Advert<'_>) -> ResponseElements
        requires ssid { length advert.now.ssid.now ≤ 32 }
        requires few_rates { length advert.now.rates.now ≤ 16 }
        ensures { result ≡ response_elements (announced advert.now) }
    {
        let mut elements = ResponseElements {
            octets: [0; MAX_LEN],
            len: 0,
        };
        elements.append_element(SSID, advert.ssid);
        elements.append_supported_rates(advert.rates);
        elements.append_element(DSSS_PARAMETER_SET, &[advert.channel]);
        elements.append_extended_rates(advert.rates);
        elements
    }

    /// Appends the first eight rates, or all if there are fewer (9.4.2.3), for which there is room.
    fn append_supported_rates(&mut self, rates: &[u8])
        requires room { length self.old ≤ 47 }
        ensures rates { self.new ≡ self.old ++ supported_rates rates.now }
        ensures few { length self.new ≤ length self.old + 10 }
    {
        let (first, _) = rates.split_at(rates.len().min(MAX_SUPPORTED_RATES));
        self.append_element(SUPPORTED_RATES, first);
    }

    /// Appends the rates after the eighth, if there are any (9.4.2.13), of at most 16 rates in all (*profile*), for
    /// which there is room.
    fn append_extended_rates(&mut self, rates: &[u8])
        requires room { length self.old ≤ 47 }
        requires few { length rates.now ≤ 16 }
        ensures { self.new ≡ self.old ++ extended_rates rates.now }
    {
        let (_, others) = rates.split_at(rates.len().min(MAX_SUPPORTED_RATES));
        if !others.is_empty() {
            self.append_element(EXTENDED_SUPPORTED_RATES, others);
        }
    }

    /// Appends an element, for which there is room.
    fn append_element(&mut self, id: u8, body: &[u8])
        requires room { length self.old + 2 + length body.now ≤ 57 }
        ensures { self.new ≡ self.old ++ element id body.now }
    {
        self.append(&[id, body.len() as u8]);
        self.append(body);
    }

    /// Appends octets, for which there is room.
    fn append(&mut self, octets: &[u8])
        requires room { length self.old + length octets.now ≤ 57 }
        ensures { self.new ≡ self.old ++ octets.now }
    {
        let end = self.len + octets.len();
        self.octets[self.len..end].copy_from_slice(octets);
        self.len = end;
    }

    /// The octets.
    pub fn as_slice(&self) -> &[u8]
        ensures { result.now ≡ self.now }
    {
        &self.octets[..self.len]
    }
}
