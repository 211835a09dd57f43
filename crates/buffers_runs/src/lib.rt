// Runs of bytes judged by their largest byte, without a way out, so that the compiler takes many bytes at once.
// A run is a place and a count, as in the definitions. By slices, the proofs of the panel's codes and signals did not close.

#![tactic(auto)]

ghost use Rattle.std.specs.Prelude.{◌≡◌, ◌+◌, ◌≤◌, leb, length, get_or};
ghost use Rattle.logic.specs.Test.{all};
ghost use Rattle.gates.specs.Translation.{is_translation};
ghost use Rattle.buffers_runs.specs.Zeros.{zeros};
ghost use Rattle.buffers_runs.specs.Largest.{largest_of};

// The largest of `count` bytes starting at `at`.
fn largest(bytes: &[u8], at: usize, count: usize) -> u8
    requires { at + count ≤ length bytes.now }
    ensures { result ≡ largest_of bytes.now at count }
{
    bytes[at..at + count]
        .iter()
        .fold(0, |best, &byte| best.max(byte))
}

// `count` bytes starting at `at` are 0, as every number that is not in use (D25). The three tests of a largest byte have each the name of
// their definition.
#[tactic(auto, using(crate::proofs::Runs::largest_zeros))]
pub fn all_zero(bytes: &[u8], at: usize, count: usize) -> bool
    requires { at + count ≤ length bytes.now }
    ensures { result ≡ zeros bytes.now at count }
{
    largest(bytes, at, count) == 0
}

// `count` bytes starting at `at` are "a value 0 to 3".
#[tactic(auto, using(crate::proofs::Runs::largest_limit))]
pub fn all_values(bytes: &[u8], at: usize, count: usize) -> bool
    requires { at + count ≤ length bytes.now }
    ensures { result ≡ all count (λ k. leb (get_or bytes.now (at + k) 0) 3) }
{
    largest(bytes, at, count) <= 3
}

// `count` bytes starting at `at` are codes of translations.
#[tactic(auto, using(crate::proofs::Runs::largest_translations))]
pub fn all_translations(bytes: &[u8], at: usize, count: usize) -> bool
    requires { at + count ≤ length bytes.now }
    ensures { result ≡ all count (λ k. is_translation (get_or bytes.now (at + k) 0)) }
{
    gates::is_translation(u16::from(largest(bytes, at, count)))
}
