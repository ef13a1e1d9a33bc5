//! What follows from the definitions, for whoever stands on them.

ghost use Rattle.std.specs.Prelude.{◌≡◌, ℕ, List, flat_map};
ghost use Rattle.ap_config.specs.declared.config.RadioConfig.{RadioConfig};
ghost use Rattle.ap_config.specs.declared.setting.Setting.{Setting};
ghost use Rattle.events.specs.declared.event.Event.{Event};
ghost use Rattle.network.specs.Section.{section_of, sections_of};
ghost use Rattle.report.specs.Report.{report_text, section_text};
ghost use Rattle.networks.specs.WithFrames.{after_events};
ghost use Rattle.network_report.specs.NetworkText.{network_text, networks_after};

/// A network that keeps no history is reported as its section is: each one, and all networks of a configuration.
pub fn as_sections()
    ensures one { (s : Setting) (es : List Event) → network_text (after_events s es) ≡ section_text (section_of s es) }
    ensures all { (c : RadioConfig) (events_at : ℕ → List Event)
        → flat_map network_text (networks_after c events_at) ≡ report_text (sections_of c events_at) }
{}
