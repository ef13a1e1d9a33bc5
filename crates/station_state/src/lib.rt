//! The state that a network keeps of a station (IEEE Std 802.11-2016, 11.3), and which frames it takes in that state.
//!
//! Two types to know first: a [`Standing`] is how far a station has come, and a [`StationState`] is what a network keeps
//! of one that it knows. It promises that [`fault`] is the table of 11.3.3: which class of frame is taken from a station
//! in which state, and what is sent to the station if one is not.
//!
//! Which requests move a station from one state to another, and which class a request has, is left to the crates above.
//!
//! A station sends data, which is of class 3, before it is associated, and after:
//!
//! ```
//! use station_state::{Class, INVALID_CLASS_3_FRAME, Notice, Standing, fault};
//!
//! let notice = fault(Standing::Authenticated, Class::Three);
//! assert_eq!(rt; notice, Some(Notice::Disassociate(INVALID_CLASS_3_FRAME)));
//! assert_eq!(rt; fault(Standing::Associated, Class::Three), None);
//! ```
#![tactic(auto)]

mod class;
mod state;

pub use class::{Class, INVALID_CLASS_2_FRAME, INVALID_CLASS_3_FRAME, Notice, fault};
pub use state::StationState;

/// The state that the network keeps of a station (11.3.1), and which request moves it. A refused request moves nothing:
///
/// ```text
///                 authentication                   (re)association
///   ┌─────────┐ ────────────────▶ ┌───────────────┐ ───────────────▶ ┌─ Associated ───────────────────────┐
///   │ Unknown │                   │ Authenticated │                  │ ┌────────┐       1       ┌───────┐ │
///   │         │ ◀──────────────── │               │ ◀─────────────── │ │ active │ ────────────▶ │ dozes │ │
///   └─────────┘  deauthentication └───────────────┘  disassociation, │ │        │ ◀──────────── │       │ │
///        ▲                                           authentication  │ └────────┘       0       └───────┘ │
///        │                                                           │      ▲                       │     │
///        │                                                           │      └─── (re)association ───┘     │
///        │                                                           └──────────────────┬─────────────────┘
///        └───────────────────────────── deauthentication ───────────────────────────────┘
/// ```
///
/// Here 1 and 0 are the Power Management of a Data or Null frame. What goes out to the station for a request, by its
/// state; a dash is nothing:
///
/// ```text
///   request             Unknown                       Authenticated                 Associated
///   ─────────────────── ───────────────────────────── ───────────────────────────── ─────────────────────────────
///   probe request       probe response                probe response                probe response
///   authentication      authentication, its status    authentication, its status    authentication, its status
///   (re)association     deauthentication, reason 6    (re)association response      (re)association response
///   disassociation      deauthentication, reason 6    -                             -
///   deauthentication    -                             -                             -
///   Data, Null          deauthentication, reason 7    disassociation, reason 7      what was kept for it, on waking
///   PS-Poll             deauthentication, reason 7    disassociation, reason 7      the first unit kept, if it dozes
/// ```
///
/// A notice with reason 6 or 7 moves nothing: [`fault`] is this part of the table (11.3.3). Which probe requests and polls
/// are answered, with which status the others, and where the unit of a Data frame goes, is said where a network answers
/// them. An authentication leaves a station that is authenticated as it is. Whether one dozes, its identifier and its
/// listen interval are kept by the network ([`StationState`]). `docs/station_states.svg` is the picture without answers.
#[derive(Clone, Copy, Debug, PartialEq, Eq)]
pub enum Standing {
    /// State 1: not authenticated.
    Unknown,
    /// State 2: authenticated, not associated.
    Authenticated,
    /// State 4, as there is no RSNA: authenticated and associated.
    Associated,
}
