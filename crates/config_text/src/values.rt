//! The value at a key of a table, if it is of the type that the key asks for.

ghost use Rattle.std.specs.Prelude.{◌≡◌, ◌≤◌, IfSome, option_map, option_copied};
ghost use Rattle.ap_config.specs.Configuration.{is_between};
ghost use Rattle.toml.specs.Data.{get_member};
ghost use Rattle.toml.specs.View.{view, array_view, table_view};
ghost use Rattle.config_text.specs.ConfigurationText.{number_at, text_at, array_at, truth_at};

use ap_config::Limits;
use toml::value::Array;
use toml::{Table, Value};

/// The value at a key.
fn value_at<'a>(table: &'a Table, key: &str) -> Option<&'a Value>
    ensures { option_map (λ value. view value.now) result ≡ get_member key.now (table_view table.now) }
{
    table.get(key)
}

/// The integer at a key, if it lies within its limits.
#[tactic(auto, unfolding(crate::specs::ConfigurationText::number_at))]
pub(crate) fn number_at(table: &Table, key: &str, limits: Limits) -> Option<u32>
    ensures value { result ≡ number_at (is_between limits.least limits.most) key.now (table_view table.now) }
    ensures within { IfSome result (λ number. (limits.least ≤ number) × (number ≤ limits.most)) }
{
    let number = value_at(table, key)?.as_integer()?;
    let number = u32::try_from(number).ok()?;
    if limits.allow(number) {
        Some(number)
    } else {
        None
    }
}

/// The text at a key.
#[tactic(auto, unfolding(crate::specs::ConfigurationText::text_at))]
pub(crate) fn text_at<'a>(table: &'a Table, key: &str) -> Option<&'a str>
    ensures { option_copied result ≡ text_at key.now (table_view table.now) }
{
    value_at(table, key)?.as_str()
}

/// The array at a key.
#[tactic(auto, unfolding(crate::specs::ConfigurationText::array_at))]
pub(crate) fn array_at<'a>(table: &'a Table, key: &str) -> Option<&'a Array>
    ensures { option_map (λ array. array_view array.now) result ≡ array_at key.now (table_view table.now) }
{
    value_at(table, key)?.as_array()
}

/// The truth value at a key.
#[tactic(auto, unfolding(crate::specs::ConfigurationText::truth_at))]
pub(crate) fn truth_at(table: &Table, key: &str) -> Option<bool>
    ensures { result ≡ truth_at key.now (table_view table.now) }
{
    value_at(table, key)?.as_bool()
}
