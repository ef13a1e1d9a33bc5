//! What waits on its way to the air, of the receivers of a radio's networks, which of it goes next, and what becomes of
//! it (IEEE Std 802.11-2016, 11.2).
//!
//! It promises that each network is what it would be alone with its own calls ([`alone`]), and that networks share the
//! air that callers tell by the rule of `air_share`, within limits ([`fair`]). Of each receiver no frame vanishes, and
//! frames go first in the order in which they came. Each time that one comes it goes twice at most. To a station that
//! dozes no more units go for the first time than it polls, one at a time. The type to know first is [`RadioQueue`]. It
//! has for each network a [`NetworkQueue`], whose receivers take turns, each a [`ReceiverQueue`]. A caller may choose
//! the receiver instead, by [`RadioQueue::next_of`], and pause a network. The caller keeps the octets. It names each
//! [`Frame`] by a ticket.
//!
//! Times are numbers that callers bring, and so is the air that a frame took. Rates and the radio are left to them.
//!
//! A unit comes for the only receiver of a network, goes, and is acknowledged:
//!
//! ```
//! use downlink::{Fate, NetworkQueue, RadioQueue, StationChange};
//!
//! let mut radio = RadioQueue::new(rt.alloc());
//! radio.add(1, NetworkQueue::new(rt.alloc(), &[8])?)?;
//! assert!(rt; radio.change(0, 0, StationChange::Joins));
//! assert!(rt; radio.comes(0, 0, 7, true, 50, 0)?.is_none());
//! let sent = radio.next(1).ok_or("nothing goes")?;
//! assert_eq!(rt; sent.answer.answer.fate, Fate::Goes);
//! let told = radio.told(0, 0, 7, true).ok_or("nothing went")?;
//! assert_eq!(rt; told.answer.answer.fate, Fate::Acknowledged);
//! ```
#![tactic(auto)]

mod answer;
mod frame;
mod laws;
mod network_laws;
mod network_queue;
mod radio_laws;
mod radio_queue;
mod ready;
mod receiver;
mod station_change;
mod station_mode;
mod waiting;

pub use answer::{Answer, Fate};
pub use frame::{Frame, Sent, Way};
pub use laws::{
    at_most_twice, bounded, by_polls, in_order, nothing_made_up, nothing_vanishes,
    one_answer_at_a_time, waits_in_order,
};
pub use network_laws::each_receiver_alone;
pub use network_queue::{NetworkQueue, ReceiverAnswer, Refusal};
pub use radio_laws::{
    alone, each_receiver_alone_in_radio, fair, made_one_by_one, prompt,
    radio_answers_polls_in_turn, radio_doubles_nothing, radio_holds_few, radio_keeps_order,
    radio_lets_sleep, radio_loses_nothing, radio_makes_nothing_up, shared_by_the_rule,
    unmoved_by_others, waits_while_frames_may_go,
};
pub use radio_queue::{NetworkAnswer, RadioQueue};
pub use receiver::ReceiverQueue;
pub use station_change::StationChange;
pub use station_mode::StationMode;
