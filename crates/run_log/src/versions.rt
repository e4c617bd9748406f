ghost use Rattle.std.specs.Prelude.{◌≡◌, ◌++◌};
ghost use Rattle.log_model.specs.LogText.{version_of, head_of, lines_before, end_of};

use line_text::{Line, add, add_decimal};
use log_model::Version;
use task_base::Place;

/// The version that the text of a log is read by: 2 where its first line says so, with its line feed, else 1.
pub fn version_of(bytes: &[u8]) -> Version
    ensures { result ≡ version_of bytes.now }
{
    split_head(bytes).0
}

/// The version of a text, and what stands behind its head.
pub(crate) fn split_head(bytes: &[u8]) -> (Version, &[u8])
    ensures version { result.0 ≡ version_of bytes.now }
    ensures lines { bytes.now ≡ head_of (version_of bytes.now) ++ result.1.now }
{
    match bytes.strip_prefix(head_of(Version::Two)) {
        Some(lines) => (Version::Two, lines),
        None => (Version::One, bytes),
    }
}

/// What stands before the lines of the entries.
pub fn head_of(version: Version) -> &'static [u8]
    ensures { result.now ≡ head_of version }
{
    match version {
        Version::One => b"",
        Version::Two => b"taskenv log 2\n",
    }
}

/// How many lines stand before those of the entries.
pub fn lines_before(version: Version) -> u32
    ensures { result ≡ lines_before version }
{
    match version {
        Version::One => 0,
        Version::Two => 1,
    }
}

/// What stands behind the lines of so many entries. It takes no memory.
pub fn end_of(version: Version, entries: Place) -> Line
    ensures { result.items ≡ end_of version entries }
{
    let mut line = Line::new();
    if version == Version::Two {
        add(&mut line, b"total ");
        add_decimal(&mut line, u64::from(entries));
        line.push(b'\n');
    }
    line
}
