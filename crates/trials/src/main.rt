// Runs the trials that are executed and prints a line for each, in six-column fields.

#![tactic(auto)]

ghost use Rattle.std.specs.Prelude.{◌≤◌, length};
ghost use Rattle.gates.specs.Value.{Code};

use gates::{Gate, TruthTables};

// Values, functions and translations by name.
const U: u8 = 2;

const Z: u8 = 3;

const AND: u8 = 0;

const XOR: u8 = 1;

const IDENTITY: u8 = 2;

const SELECT: u8 = 3;

const MAJORITY: u8 = 4;

const SAME: u8 = 4;

const INVERT: u8 = 5;

// Prints a line of at most 21 numbers, which 128 bytes hold. A line that can not be written is left out. Nothing allocates, so that the
// text goes into a buffer and has its length beside it.
fn print_line(rt: &impl Print, numbers: &[u16])
    requires { length numbers.now ≤ 21 }
{
    let mut line = [0u8; 128];
    let end = writing::write_line(&mut line, 0, numbers);
    let _ = rt.write_all(&line[..end]);
}

// A gate that takes its operands as they are: prints f, g5, the operands and the value.
fn gate_trial(rt: &impl Print, f: u8, g5: u8, a: u8, b: u8, c: u8, d: u8)
    requires { (f ≤ 4) × (g5 ≤ 6) × Code a × Code b × Code c × Code d }
{
    let tables = TruthTables::new();
    let gate = Gate {
        f,
        g1: SAME,
        g2: SAME,
        g3: SAME,
        g4: SAME,
        g5,
    };
    let value = gate.value(&tables, a, b, c, d);
    print_line(rt, &[f, g5, a, b, c, d, value].map(u16::from));
}

// Prints the trial's number, and 1 if the text is a right field, else 0.
fn field_trial(rt: &impl Print, trial: u16, text: &[u8]) {
    let right = fields::read_field(text, 0).is_some();
    print_line(rt, &[trial, u16::from(right)]);
}

// Each is a call of its own, at which its numbers are seen to be codes: of those in an array a loop would have to be told.
fn gate_trials(rt: &impl Print) {
    gate_trial(rt, AND, SAME, 1, 1, 1, 1);
    gate_trial(rt, AND, SAME, 1, Z, 1, 1);
    gate_trial(rt, AND, SAME, U, 0, 1, 1);
    gate_trial(rt, IDENTITY, INVERT, Z, 0, 0, 0);
    gate_trial(rt, XOR, SAME, 1, 1, 1, 0);
    gate_trial(rt, XOR, SAME, 1, Z, 0, 0);
    gate_trial(rt, SELECT, SAME, U, 1, 1, 0);
    gate_trial(rt, SELECT, SAME, U, Z, Z, 0);
    gate_trial(rt, MAJORITY, SAME, 1, U, 1, 0);
}

// The trials of fields are numbered from 1.
fn field_trials(rt: &impl Print) {
    let texts: [&[u8]; 10] = [
        b"     0", b" 65535", b" 65536", b"     7", b"    07", b"    +7", b"     -", b"7     ",
        b"      ", b"    7",
    ];
    for (trial, text) in (1..=10).zip(texts) {
        field_trial(rt, trial, text);
    }
}

fn main(rt: HostRuntime) {
    gate_trials(&rt);
    field_trials(&rt);
}
