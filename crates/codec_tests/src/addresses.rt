//! Addresses, for every file of tests.

/// A network.
pub const NETWORK: [u8; 6] = [0x02, 0, 0, 0, 0, 0x01];

/// A station of it.
pub const STATION: [u8; 6] = [0x02, 0xaa, 0, 0, 0, 0x01];
