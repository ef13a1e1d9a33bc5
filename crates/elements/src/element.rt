//! Elements (IEEE Std 802.11-2016, 9.4.2.1): their element IDs, the list of a body, and one that is sent.

ghost use Rattle.std.specs.Prelude.{◌≡◌, ◌==◌, ◌++◌, ℕ, ◌<◌, ◌≤◌, List, [], length, slice_index, Some, None, is_some};
ghost use Rattle.std.specs.Prelude.{option_map, IfSome, IfNone, IfOk, IsOkAnd, OnOk, OnErr, MatchResult, if◌then◌else◌};
ghost use Rattle.std.specs.Iterator.{YieldsFirstBy, item_count};
ghost use Rattle.elements.specs.Elements.{Pair, IsElements, elements_of, before, first_of, shown, element};

use mac_frame::{NoMemory, Octets};
use std::marker::Model;

/// The element ID of the SSID (9.4.2.2).
pub const SSID: u8 = 0;

/// The element ID of Supported Rates (9.4.2.3).
pub const SUPPORTED_RATES: u8 = 1;

/// The element ID of the DSSS Parameter Set (9.4.2.4).
pub const DSSS_PARAMETER_SET: u8 = 3;

/// The element ID of Extended Supported Rates (9.4.2.13).
pub const EXTENDED_SUPPORTED_RATES: u8 = 50;

/// One element (9.4.2.1).
#[derive(Clone, Copy, Debug)]
pub struct Element<'a> {
    /// The element ID (9.4.2.1, Table 9-77).
    pub id: u8,
    /// The Information field, at most 255 octets.
    pub body: &'a [u8],
}

/// An element's length passes the end of the body, or a last octet stands alone (9.4.2.1).
#[derive(Clone, Copy, Debug, PartialEq, Eq)]
pub struct Overrun;

/// The elements of a body that are still to come (9.4.2.1). Contracts see them as pairs of an element ID and its
/// octets.
#[derive(Debug, Drop)]
pub struct Elements<'a> {
    rest: &'a [u8],
}

impl<'a> Model for Elements<'a> {
    ghost use Rattle.std.specs.Prelude.{◌≡◌, List, Some};
    ghost use Rattle.elements.specs.Elements.{Pair, elements_of, listed};

    ghost Value = { List Pair };

    ghost view = { λ e. listed e.rest.now };

    ghost invariant = { λ e. elements_of e.rest.now ≡ Some (listed e.rest.now) };
}

impl<'a> Elements<'a> {
    /// The elements of a body (9.4.2.1): an error exactly if the body is no concatenation of elements. It takes
    /// no memory.
    #[tactic(auto, using(crate::proofs::Walk::elements_of_elements))]
    pub fn new(body: &'a [u8]) -> Result<Elements<'a>, Overrun>
        ensures ok { IfOk result (λ es. IsElements body.now es) }
        ensures only { (es : List Pair) → IsElements body.now es → IsOkAnd result (λ r. r ≡ es) }
        ensures exact { MatchResult result (λ es. elements_of body.now ≡ Some es) (λ _. elements_of body.now ≡ None) }
    {
        if !are_elements(body) {
            return Err(Overrun);
        }
        Ok(Elements { rest: body })
    }

    /// The Information field of the first element with this element ID, if there is one (9.4.2.1; which of several
    /// counts is *profile*). It takes no memory.
    pub fn first(&self, id: u8) -> Option<&'a [u8]>
        ensures { option_map (λ body. body.now) result ≡ first_of id self.now }
    {
        for element in (Elements { rest: self.rest }) {
            if element.id == id {
                return Some(element.body);
            }
        }
        None
    }
}

impl<'a> Iterator for Elements<'a> {
    type Item = Element<'a>;

    ghost next_gives = { YieldsFirstBy shown (λ es. es) };

    ghost remaining = { item_count (λ es. es) };

    fn next(&mut self) -> Option<Element<'a>> {
        let (element, others) = split_element(self.rest)?;
        self.rest = others;
        Some(element)
    }
}

/// Whether a body is a concatenation of elements.
fn are_elements(body: &[u8]) -> bool
    ensures { result ≡ is_some (elements_of body.now) }
{
    let mut rest = body;
    while let Some((_, others)) = split_element(rest) {
        rest = others;
    }
    rest.is_empty()
}

/// The first element of a body and what follows it: nothing if the body is empty, if a last octet stands
/// alone, and if the element passes the end.
#[tactic(auto, using(crate::proofs::Walk::elements_of_short, crate::proofs::Walk::elements_of_overrun, crate::proofs::Walk::elements_of_split))]
fn split_element(body: &[u8]) -> Option<(Element<'_>, &[u8])>
    ensures found { IfSome result (λ split. elements_of body.now ≡ before (shown split.0) (elements_of split.1.now)) }
    ensures shorter { IfSome result (λ split. length split.1.now < length body.now) }
    ensures none { IfNone result (elements_of body.now ≡ (if length body.now == 0 then Some [] else None)) }
{
    let [id, len, rest @ ..] = body else {
        return None;
    };
    let len = usize::from(*len);
    if rest.len() < len {
        return None;
    }
    let (body, others) = rest.split_at(len);
    Some((Element { id: *id, body }, others))
}

/// Appends an element with this element ID and Information field, of at most 255 octets (9.4.2.1). After `NoMemory`
/// `out` is as it was.
#[inline(always)]
pub fn write_element(out: &mut Octets, id: u8, body: &[u8]) -> Result<(), NoMemory>
    requires { length body.now ≤ 255 }
    ensures ok { OnOk result (out.new ≡ out.old ++ element id body.now) }
    ensures err { OnErr result (out.new ≡ out.old) }
{
    out.append_both(&[id, body.len() as u8], body)
}

/// A body is one list of elements at most, and reading gives it exactly if there is one (9.4.2.1).
pub fn one_list()
    ensures unique { (body : List ℕ) (es fs : List Pair) → IsElements body es → IsElements body fs → es ≡ fs }
    ensures read { (body : List ℕ) (es : List Pair) → IsElements body es → elements_of body ≡ Some es }
    ensures found { (body : List ℕ) (es : List Pair) → ((place : ℕ) → slice_index body place < 256)
        → elements_of body ≡ Some es → IsElements body es }
{}
