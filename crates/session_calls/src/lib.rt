// The session's four calls on byte buffers (01, Session). `cavundir_panel_c` exports them for C.

#![tactic(auto)]

ghost use Rattle.std.specs.Prelude.{◌≡◌, List, ℕ, ◌≤◌};
ghost use Rattle.model.specs.Session.{set as setting, watch as watching, read as reading, run as running};
ghost use Rattle.buffers_memory.specs.Memory.{with_memory, MemoryBytes};
ghost use Rattle.buffers_tables.specs.Panel.{signals_in, processors_in, slots_in};
ghost use Rattle.buffers_tables.specs.Tables.{Tables};
ghost use Rattle.machine_run.specs.Running.{Watching};
ghost use Rattle.file_lines.specs.Answer.{Answers};
ghost use Rattle.session_answers.specs.Refusals.{call_refusal};
ghost use Rattle.session_answers.specs.Answers.{answer_bits};
ghost use Rattle.session_answers.specs.Replies.{call_answer};
ghost use Rattle.session_state.specs.Header.{head_in, with_head};
ghost use Rattle.session_state.specs.Carried.{head_of};
ghost use Rattle.session_state.specs.Commands.{commanded};
ghost use Rattle.session_calls.specs.Reply.{buffers_of, ready_check, reply};
ghost use Rattle.session_calls.specs.Writes.{Writes};

use buffers_memory::Memory;
use buffers_tables::{Panel, Program};
use gates::TruthTables;
use machine_run::Readable;
use machine_slot::Machine;
use session_answers::CallRefusal;
use session_state::Told;

// 40 where a length differs from the fixed one, then 44. After an Ok each buffer is an array of its length.
fn readiness(panel: &[u8], program: &[u8], memory: &[u8]) -> Result<(), CallRefusal>
    ensures { Answers call_refusal (tt {0}) (ready_check (buffers_of panel.now program.now memory.now)) result }
{
    let panel: &Panel = panel.try_into()?;
    let program: &Program = program.try_into()?;
    let memory: &Memory = memory.try_into()?;
    if !buffers_range::in_range(panel, program, memory) {
        return Err(CallRefusal::OutOfRange);
    }
    Ok(())
}

// The session that a command hands back, written into the panel, and its answer for C.
fn tell(told: Told, panel: &mut Panel) -> u64
    ensures value { result ≡ answer_bits (call_answer told.answer) }
    ensures panel_after { panel.new ≡ with_head (head_of told.session panel.old) panel.old }
{
    told.session.encode(panel);
    session_answers::answer_bits(told.answer)
}

// A setting, on buffers in range.
fn set_in(panel: &mut Panel, signal: u32, value: u32) -> u64
    requires { signals_in panel.old ≤ 4096 }
    ensures { (program memory : List ℕ) → Writes (commanded panel.old program memory (head_in panel.old) (setting signal value)) panel.old result panel.new }
{
    tell(
        session_state::decode(panel).set(panel, signal, value),
        panel,
    )
}

// A watch, on buffers in range.
fn watch_in(panel: &mut Panel, signal: u32, mask: u32) -> u64
    requires { signals_in panel.old ≤ 4096 }
    ensures { (program memory : List ℕ) → Writes (commanded panel.old program memory (head_in panel.old) (watching signal mask)) panel.old result panel.new }
{
    tell(
        session_state::decode(panel).watch(panel, signal, mask),
        panel,
    )
}

// A read, on buffers in range. The session that it hands back is the old one, and nothing is written.
fn read_in(readable: &Readable, signal: u32) -> u64
    ensures { (program : List ℕ) → Writes (commanded readable.now.panel.now program readable.now.memory.now (head_in readable.now.panel.now) (reading signal)) readable.now.panel.now result readable.now.panel.now }
{
    let told = session_state::decode(readable.panel).read(readable, signal);
    session_answers::answer_bits(told.answer)
}

// A run, on buffers in range. The tables of the gates are made once for all its cycles.
fn run_in(panel: &mut Panel, program: &Program, memory: &mut Memory, cycles: u32) -> u64
    requires tables { Tables panel.old program.now }
    requires watching { Watching panel.old (head_in panel.old).watch }
    requires memory_bytes { MemoryBytes memory.old }
    ensures writes { Writes (commanded panel.old program.now memory.old (head_in panel.old) (running cycles)) panel.old result panel.new }
    ensures memory_after { memory.new ≡ with_memory (processors_in panel.old) (slots_in panel.old) (commanded panel.old program.now memory.old (head_in panel.old) (running cycles)).state memory.old }
{
    let tables = TruthTables::new();
    let session = session_state::decode(panel);
    let told = session.run(&Machine::new(&tables, panel, program), memory, cycles);
    tell(told, panel)
}

// The four calls stay apart: they are four entries for C, and each is lent other buffers to write. The arrays that `readiness` makes are
// not handed on, since it shares all three and a call then writes some: each makes those that it needs. It unwraps them, since `readiness`
// says that their lengths are right: by `ok_or` and `?` there would be an error that cannot happen.

// Set an input for the next cycle. Refused by 40, 44, 41, 42, in this order.
pub fn set(panel: &mut [u8], program: &[u8], memory: &[u8], signal: u32, value: u32) -> u64
    ensures answer { result ≡ answer_bits (reply (buffers_of panel.old program.now memory.now) (setting signal value)).answer }
    ensures left { (reply (buffers_of panel.old program.now memory.now) (setting signal value)).buffers ≡ buffers_of panel.new program.now memory.now }
{
    match readiness(panel, program, memory) {
        Err(refusal) => session_answers::answer_bits(Err(refusal)),
        Ok(()) => set_in(panel.as_mut_array().unwrap(), signal, value),
    }
}

// Set the one watch. Refused by 40, 44, 41, 42.
pub fn watch(panel: &mut [u8], program: &[u8], memory: &[u8], signal: u32, mask: u32) -> u64
    ensures answer { result ≡ answer_bits (reply (buffers_of panel.old program.now memory.now) (watching signal mask)).answer }
    ensures left { (reply (buffers_of panel.old program.now memory.now) (watching signal mask)).buffers ≡ buffers_of panel.new program.now memory.now }
{
    match readiness(panel, program, memory) {
        Err(refusal) => session_answers::answer_bits(Err(refusal)),
        Ok(()) => watch_in(panel.as_mut_array().unwrap(), signal, mask),
    }
}

// Read a signal. Refused by 40, 44, 41. Every buffer is lent to be read alone.
pub fn read(panel: &[u8], program: &[u8], memory: &[u8], signal: u32) -> u64
    ensures answer { result ≡ answer_bits (reply (buffers_of panel.now program.now memory.now) (reading signal)).answer }
    ensures left { (reply (buffers_of panel.now program.now memory.now) (reading signal)).buffers ≡ buffers_of panel.now program.now memory.now }
{
    match readiness(panel, program, memory) {
        Err(refusal) => session_answers::answer_bits(Err(refusal)),
        Ok(()) => {
            let readable = Readable {
                panel: panel.as_array().unwrap(),
                memory: memory.as_array().unwrap(),
            };
            read_in(&readable, signal)
        }
    }
}

// Run k cycles. Refused by 40, 44, 43.
pub fn run(panel: &mut [u8], program: &[u8], memory: &mut [u8], cycles: u32) -> u64
    ensures answer { result ≡ answer_bits (reply (buffers_of panel.old program.now memory.old) (running cycles)).answer }
    ensures left { (reply (buffers_of panel.old program.now memory.old) (running cycles)).buffers ≡ buffers_of panel.new program.now memory.new }
{
    match readiness(panel, program, memory) {
        Err(refusal) => session_answers::answer_bits(Err(refusal)),
        Ok(()) => run_in(
            panel.as_mut_array().unwrap(),
            program.as_array().unwrap(),
            memory.as_mut_array().unwrap(),
            cycles,
        ),
    }
}
