//! The setting of a network, as it announces itself to stations that ask.

ghost use Rattle.std.specs.Prelude.{◌≡◌, ℕ, None};
ghost use Rattle.ap_config.specs.Configuration.{network_fault};
ghost use Rattle.beacon.specs.ProbeResponse.{response_elements};
ghost use Rattle.network.specs.Network.{announced_at};

use crate::shown::announcement;
use ap_config::Setting;
use beacon::ResponseElements;
use std::marker::Model;

/// The setting of a network with the elements of its probe responses, which no event changes, so that they are put
/// together once (IEEE Std 802.11-2016, 9.3.3.11). Contracts see the setting.
#[derive(Drop)]
pub struct AnnouncedSetting {
    setting: Setting,
    elements: ResponseElements,
}

impl Model for AnnouncedSetting {
    ghost use Rattle.std.specs.Prelude.{◌≡◌};
    ghost use Rattle.ap_config.specs.declared.setting.Setting.{Setting};
    ghost use Rattle.beacon.specs.ProbeResponse.{response_elements};
    ghost use Rattle.network.specs.Network.{announced_at};

    ghost Value = { Setting };

    ghost view = { λ a. a.setting };

    ghost invariant = { λ a. a.elements ≡ response_elements (announced_at a.setting 0) };
}

impl AnnouncedSetting {
    /// A setting in whose network `check` finds no fault. It takes no memory.
    pub fn new(setting: Setting) -> AnnouncedSetting
        requires { network_fault setting.network ≡ None }
        ensures { result ≡ setting }
    {
        let elements = ResponseElements::new(&announcement(&setting, 0, 0));
        AnnouncedSetting { setting, elements }
    }

    /// The setting.
    pub fn get(&self) -> &Setting
        ensures { result.now ≡ self.now }
    {
        &self.setting
    }

    /// The elements of its probe responses, the same at each clock.
    pub fn response_elements(&self) -> &ResponseElements
        ensures { (clock : ℕ) → result.now ≡ response_elements (announced_at self.now clock) }
    {
        &self.elements
    }

    /// The setting, if it is announced no more.
    pub fn into_inner(self) -> Setting
        ensures { result ≡ self }
    {
        self.setting
    }
}
