// Names: what a command, a list or a number is called. A name has 12 bytes, the last of them blank where it is shorter.
ghost use Rattle.std.specs.Prelude.{◌≡◌};
ghost use Rattle.text.specs.Text.{name_text};

use crate::buffer::Writable;

pub const NAME: usize = 12;

// The bytes of a name before its blanks.
pub fn name_bytes(name: &[u8; NAME]) -> &[u8]
    ensures { result.now ≡ name_text name.now }
{
    let size = name.iter().position(|byte| *byte == b' ').unwrap_or(NAME);
    &name[..size]
}

// Writes a name.
pub fn write_name<T: Writable>(text: &mut T, name: [u8; NAME])
    ensures { text.new ≡ T.after (name_text name) text.old }
{
    text.push_all(name_bytes(&name));
}
