// Numbers of two bytes, the low one first.

#![tactic(auto)]

ghost use Rattle.std.specs.Prelude.{◌≡◌, ◌+◌, ◌≤◌, length};
ghost use Rattle.words.specs.Word.{word};
ghost use Rattle.words.specs.Stored.{word_stored};

// The number in two bytes at a place, the low one first.
pub fn word_at(bytes: &[u8], at: usize) -> u16
    requires { at + 2 ≤ length bytes.now }
    ensures { result ≡ word bytes.now at }
{
    u16::from_le_bytes([bytes[at], bytes[at + 1]])
}

// A number stored in two bytes at a place, the low one first.
#[tactic(auto, unfolding(crate::specs::Stored::word_stored))]
pub fn store_word(bytes: &mut [u8], at: usize, number: u16)
    requires { at + 2 ≤ length bytes.old }
    ensures { bytes.new ≡ word_stored number at bytes.old }
{
    bytes[at..at + 2].copy_from_slice(&number.to_le_bytes());
}
