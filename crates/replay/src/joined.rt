//! A configuration and a trace in one text.

ghost use Rattle.replay.specs.Joined.{IsJoined, is_separator, joined_parts};
ghost use Rattle.std.specs.Prelude.{◌≡◌};

use text_io::place_of;

/// What stands alone on the line between a configuration and a trace.
const SEPARATOR: &[u8] = b"---";

/// The octets before the first line that is exactly `---`, and those after it. A line ends with LF, or with the
/// text. So `---` before a CR is not that line, and one inside a string of the configuration is. Without such a line
/// the first part is the whole text, and the second is empty.
pub fn split_joined(joined: &[u8]) -> (&[u8], &[u8])
    ensures before { result.0.now ≡ (joined_parts joined.now).0 }
    ensures after { result.1.now ≡ (joined_parts joined.now).1 }
    ensures joined { IsJoined joined.now result.0.now result.1.now }
{
    let mut start = 0;
    while let Some(len) = place_of(b'\n', &joined[start..]) {
        let end = start + len;
        if is_separator(&joined[start..end]) {
            return (&joined[..start], &joined[end + 1..]);
        }
        start = end + 1;
    }
    if is_separator(&joined[start..]) {
        return (&joined[..start], &[]);
    }
    (joined, &[])
}

/// Whether the line, taken without the LF that may end it, is the one between the parts.
fn is_separator(line: &[u8]) -> bool
    ensures { result ≡ is_separator line.now }
{
    line == SEPARATOR
}
