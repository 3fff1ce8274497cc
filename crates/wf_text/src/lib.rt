//! Lines of text, which are made on the stack.
#![tactic(auto)]

ghost use Rattle.std.specs.Prelude.{◌≡◌, ◌+◌, ◌≤◌, ◌++◌, decimal, length};

use arrayvec::ArrayVec;
use itoa::Buffer;

/// The most bytes of a line.
pub const MOST: usize = 176;

/// A line that is made on the stack.
pub type Text = ArrayVec<u8, 176>;

/// Adds `text` to `line`, which has room for it.
pub fn add(line: &mut Text, text: &[u8])
    requires { length line.old.items + length text.now ≤ MOST }
    ensures { line.new.items ≡ line.old.items ++ text.now }
{
    for byte in text {
        line.push(*byte);
    }
}

/// Adds `number` to `line`, which has room for 20 digits.
pub fn add_number(line: &mut Text, number: u64)
    requires { length line.old.items + 20 ≤ MOST }
    ensures number { line.new.items ≡ line.old.items ++ decimal number }
    ensures most { length line.new.items ≤ length line.old.items + 20 }
{
    add(line, Buffer::new().format(number).as_bytes());
}
