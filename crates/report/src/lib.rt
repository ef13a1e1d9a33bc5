//! The report: what each network did, as text (*profile*).
//!
//! ```text
//! network 02:00:00:00:00:07 ssid 63616665
//! events 9 clock 2 unread 1 lost 0 kept 1
//! station 02:aa:00:00:00:05 authenticated
//! station 02:aa:00:00:00:06 associated aid 1 listen 5 doze kept 1
//! air b000000002aa000000050200000000070200000000070000000002000000
//! wire 02bb0000000102aa00000006080001
//! end
//! ```
//!
//! A section has these lines, each ended by LF: its network's address and name; how many events the network took, with
//! what it counted; a line for each station in the order of the table; one for each frame that it sent on the air; one
//! for each that it sent on the wire; and `end`. Octets are pairs of hexadecimal digits in lower case, numbers are
//! decimal.
//!
//! [`write_report`] promises that a sink takes exactly the report of the sections it is handed, or a prefix of it if a
//! write failed or memory ran out. How a section is put together is said once, by [`put_section_in`]. It takes whatever
//! is [`Reported`], a section or a network that the crates above keep, in either [`LineForm`]. What the lines tell is
//! left to the networks, and where they go to `text_io`.
//!
//! The report of a network that took no event:
//!
//! ```
//! use fixtures::lab;
//! use mac_frame::List;
//! use network::Bss;
//! use report::write_report;
//! use text_io::Counted;
//!
//! let network = Bss::new(rt.alloc(), 6, 100, lab::config(rt.alloc(), 100)?)?;
//! let section = network.into_section(List::from_vec(Vec::new(rt.alloc())))?;
//! let mut out = Counted::new(Vec::new(rt.alloc()));
//! write_report(rt.alloc(), &[section], &mut out)?;
//! let text = b"network 02:00:00:00:00:01 ssid 6c6162\n\
//!     events 0 clock 0 unread 0 lost 0 kept 0\nend\n";
//! assert_eq!(rt; out.into_inner().as_slice(), text.as_slice());
//! ```
#![tactic(auto)]

mod count;
mod form;
mod lines;
mod reported;
mod sections;

pub use count::write_count;
pub use form::{AsText, LineForm};
pub use lines::{
    Totals, address_text, put_counts_line_in, put_end_line, put_end_line_in, put_frame_line,
    put_network_line_in, put_station_line_in,
};
pub use reported::{Reported, put_frames, put_heading_in, put_section_in};
pub use sections::write_report;
