ghost use Rattle.std.specs.Prelude.{◌≡◌, ◌<◌, take, OnOk};
ghost use Rattle.lint_text.specs.Quote.{byte_text, dots, hex_digit, is_shown, quoted, said_on};

use std::alloc::AllocError;

/// How many bytes of a word are shown at most.
const SHOWN: usize = 40;

/// Adds the word between double quotes: at most its first 40 bytes, and `..` where it has more. A byte that is no printable
/// character of ASCII is shown as `\x` and two hexadecimal digits.
pub(crate) fn quote(text: &mut Vec<u8>, word: &[u8]) -> Result<(), AllocError>
    ensures { OnOk result (text.new.items ≡ quoted text.old.items word.now) }
{
    text.push(b'"')?;
    add_bytes(text, front(word))?;
    text.extend_from_slice(dots(word))?;
    text.push(b'"')?;
    Ok(())
}

/// What is shown of a word.
fn front(word: &[u8]) -> &[u8]
    ensures { result.now ≡ take 40 word.now }
{
    if word.len() > SHOWN {
        &word[..SHOWN]
    } else {
        word
    }
}

/// What says that a word has more.
fn dots(word: &[u8]) -> &'static [u8]
    ensures { result.now ≡ dots word.now }
{
    if word.len() > SHOWN { b".." } else { b"" }
}

/// Adds the bytes, as they are shown.
fn add_bytes(text: &mut Vec<u8>, bytes: &[u8]) -> Result<(), AllocError>
    ensures { OnOk result (text.new.items ≡ said_on text.old.items bytes.now) }
{
    for byte in bytes {
        add_byte(text, *byte)?;
    }
    Ok(())
}

/// Adds one byte, as it is shown.
fn add_byte(text: &mut Vec<u8>, byte: u8) -> Result<(), AllocError>
    ensures { OnOk result (text.new.items ≡ byte_text text.old.items byte) }
{
    if is_shown(byte) {
        text.push(byte)?;
        return Ok(());
    }
    text.extend_from_slice(&[b'\\', b'x', hex_digit(byte / 16), hex_digit(byte % 16)])?;
    Ok(())
}

/// Whether a byte is a printable character of ASCII.
fn is_shown(byte: u8) -> bool
    ensures { result ≡ is_shown byte }
{
    byte >= 32 && byte < 127
}

/// The digit of a number below 16.
fn hex_digit(number: u8) -> u8
    requires { number < 16 }
    ensures { result ≡ hex_digit number }
{
    if number < 10 {
        b'0' + number
    } else {
        b'a' + (number - 10)
    }
}
