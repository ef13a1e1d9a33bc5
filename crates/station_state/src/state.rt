//! The state of a station that a network knows.

/// The state of a known station (IEEE Std 802.11-2016, 11.3.1) with what goes with it. A station in State 1 is not
/// known, and has none. [`crate::Standing`] draws which request leads from which state to which.
#[derive(Clone, Copy, Debug, PartialEq, Eq)]
pub enum StationState {
    /// State 2: authenticated, not associated.
    Authenticated,
    /// State 4, as there is no RSNA: authenticated and associated.
    Associated {
        /// Its association identifier, 1 to 2007 (9.4.1.8).
        aid: u16,
        /// Its listen interval in beacon intervals (9.4.1.6).
        listen: u16,
        /// Whether it dozes (11.2.3.2).
        doze: bool,
    },
}
