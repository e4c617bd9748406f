ghost use Rattle.std.specs.Prelude.{◌≡◌, ◌≤◌, length};
ghost use Rattle.std.specs.Io.BufRead.{strip_last};
ghost use Rattle.app_streams.specs.Parts.{is_divider, part_behind, script_part};

use script_lines::without_return;

/// The bytes of the script and those of what is behind it, which the first line that is `%%` parts.
pub fn parts_of(bytes: &[u8]) -> (&[u8], &[u8])
    ensures script { result.0.now ≡ script_part bytes.now }
    ensures behind { result.1.now ≡ part_behind bytes.now }
    ensures script_within { length result.0.now ≤ length bytes.now }
    ensures behind_within { length result.1.now ≤ length bytes.now }
{
    let mut end = 0;
    for line in bytes.split_inclusive(|byte| *byte == b'\n') {
        let next = end + line.len();
        if is_divider(line) {
            return (&bytes[..end], &bytes[next..]);
        }
        end = next;
    }
    (bytes, &[])
}

/// Whether the line parts the script from what is behind it.
fn is_divider(line: &[u8]) -> bool
    ensures { result ≡ is_divider line.now }
{
    without_return(without_feed(line)) == b"%%".as_slice()
}

/// A line without the line feed at its end.
fn without_feed(line: &[u8]) -> &[u8]
    ensures { result.now ≡ strip_last 10 line.now }
{
    match line {
        [rest @ .., b'\n'] => rest,
        _ => line,
    }
}
