//! Why a text is no configuration.

ghost use Rattle.std.specs.Prelude.{◌≡◌};
ghost use Rattle.ap_config.specs.Configuration.{of_radio, of_network};
ghost use Rattle.text_io.specs.declared.read_fault.ReadFault.TheVariants as faults;

use ap_config::ConfigFault;
use text_io::ReadFault;

/// Why no configuration was read.
pub type ConfigTextFault = ReadFault<ConfigFault>;

/// A fault of the text or of the radio's own settings: 1 to 7.
pub(crate) fn at_radio(code: u8) -> ConfigTextFault
    ensures { result ≡ faults.At (of_radio code) }
{
    ReadFault::At(ConfigFault::of_radio(code))
}

/// A fault of the network at a place: 8 to 13.
pub(crate) fn at_network(code: u8, place: usize) -> ConfigTextFault
    ensures { result ≡ faults.At (of_network code place) }
{
    ReadFault::At(ConfigFault::of_network(code, place))
}
