ghost use Rattle.std.specs.Prelude.{◌≡◌, ◌+◌, ◌≤◌, ◌∷◌, ◌++◌, length, decimal};

use arrayvec::ArrayVec;
use itoa::Buffer;

/// The bytes of a line, or of a piece of one: at most 256.
pub type Line = ArrayVec<u8, 256>;

/// Adds the bytes, for which there is room.
pub fn add(line: &mut Line, bytes: &[u8])
    requires { length line.old.items + length bytes.now ≤ 256 }
    ensures { line.new.items ≡ line.old.items ++ bytes.now }
{
    let _fits = line.try_extend_from_slice(bytes);
}

/// Adds the number in decimal, without zeros in front: at most 20 bytes.
pub fn add_decimal(line: &mut Line, number: u64)
    requires { length line.old.items ≤ 236 }
    ensures items { line.new.items ≡ line.old.items ++ decimal number }
    ensures short { length line.new.items ≤ length line.old.items + 20 }
{
    add(line, Buffer::new().format(number).as_bytes());
}

/// Adds a space and the word.
pub fn add_word(line: &mut Line, word: &[u8])
    requires { length line.old.items + length word.now ≤ 255 }
    ensures items { line.new.items ≡ line.old.items ++ 32 ∷ word.now }
    ensures length { length line.new.items ≡ length line.old.items + length word.now + 1 }
{
    line.push(b' ');
    add(line, word);
}

/// Adds a space and the number in decimal, without zeros in front: at most 21 bytes.
pub fn add_number(line: &mut Line, number: u64)
    requires { length line.old.items ≤ 235 }
    ensures items { line.new.items ≡ line.old.items ++ 32 ∷ decimal number }
    ensures short { length line.new.items ≤ length line.old.items + 21 }
{
    add_word(line, Buffer::new().format(number).as_bytes());
}
