//! Status codes (IEEE Std 802.11-2016, 9.4.1.9, Table 9-46).

/// The request was served.
pub const SUCCESS: u16 = 0;

/// It was refused for a reason that no other code names.
pub const REFUSED: u16 = 1;

/// The authentication algorithm is not one that the network takes.
pub const UNSUPPORTED_AUTH_ALGORITHM: u16 = 13;

/// The authentication transaction sequence number is not the next one.
pub const TRANSACTION_SEQUENCE_ERROR: u16 = 14;

/// The network takes no more stations.
pub const DENIED_NO_MORE_STAS: u16 = 17;

/// The station lacks a basic rate of the network.
pub const REFUSED_BASIC_RATES_MISMATCH: u16 = 18;
