//! What follows of a configuration without a fault, for whoever stands on it.

ghost use Rattle.std.specs.Prelude.{◌≡◌, ◌≤◌, None};
ghost use Rattle.std.specs.List.{AllByRecursion};
ghost use Rattle.ap_config.specs.Configuration.{fault_of, setting_fault, network_fault};
ghost use Rattle.ap_config.specs.declared.config.NetConfig.{NetConfig};
ghost use Rattle.ap_config.specs.declared.config.RadioConfig.{RadioConfig};

/// If a configuration has no fault, neither the radio's settings nor any of the networks has one by itself:
/// each network can be made.
pub fn checked_networks()
    ensures setting { (c : RadioConfig) → fault_of c ≡ None → setting_fault c.channel c.interval ≡ None }
    ensures networks { (c : RadioConfig) → fault_of c ≡ None → AllByRecursion (λ n. network_fault n ≡ None) c.networks }
{}

/// If a network has no fault by itself, its numbers are within their limits.
pub fn checked_numbers()
    ensures dtim { (n : NetConfig) → network_fault n ≡ None → 1 ≤ n.dtim }
    ensures some_stations { (n : NetConfig) → network_fault n ≡ None → 1 ≤ n.max_stations }
    ensures stations { (n : NetConfig) → network_fault n ≡ None → n.max_stations ≤ 2007 }
    ensures quota { (n : NetConfig) → network_fault n ≡ None → n.quota ≤ 100000 }
    ensures events { (n : NetConfig) → network_fault n ≡ None → n.max_events ≤ 1000000 }
{}
