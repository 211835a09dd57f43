// What loading reads of the first line of an accepted MOD: P and C. Every byte that loading writes is defined here (specs/Loaded),
// for the crates that write them, and so is how a buffer is filled.

#![tactic(auto)]

ghost use Rattle.std.specs.Prelude.{◌≡◌, ℕ, ◌<◌, length};
ghost use Rattle.logic.specs.Listed.{listed};
ghost use Rattle.buffers_load_files.specs.Checked.{ModuleChecked};

use fields::Line;
use file_mod_lines::Shape;
use file_mod_table::ModTable;

// MOD with P and C, from its line 1. The lines after it may be read.
pub fn table_of(modfile: &[u8]) -> ModTable
    requires { ModuleChecked modfile.now }
    ensures { result.modfile.now ≡ modfile.now }
{
    let line = Line::<14>::new(modfile, 0);
    let shape = Shape::of_line(&line);
    ModTable::new(modfile, shape)
}

// Every byte of a buffer, by a function of its index. A loop that writes in place: `*bytes = array::from_fn(byte)` makes the array first,
// up to 53,248 bytes more on the stack, whose size is counted and fixed (docs/PANEL.md). By index: of what an adapter of `iter_mut` wrote,
// a proof knows nothing.
pub fn fill_by<F: Fn(usize) -> u8>(bytes: &mut [u8], byte: F)
    requires { (a : ℕ) → a < length bytes.old → F.pre byte a }
    ensures { (f : ℕ → ℕ) → ((a x : ℕ) → a < length bytes.old → F.post byte a x → x ≡ f a) → bytes.new ≡ listed (length bytes.old) f }
{
    for a in 0..bytes.len() {
        bytes[a] = byte(a);
    }
}
