// The session by value: what the panel's bytes hold of it, decoded and encoded, and the commands as its methods.

#![tactic(auto)]

ghost use Rattle.std.specs.Prelude.{◌≡◌, List, ℕ, ◌≤◌, Err};
ghost use Rattle.model.specs.Session.{set as setting, watch as watching, read as reading, run as running};
ghost use Rattle.buffers_memory.specs.Memory.{with_memory, MemoryBytes};
ghost use Rattle.buffers_tables.specs.Panel.{signals_in, processors_in, slots_in};
ghost use Rattle.machine_run.specs.Running.{watch_of, Watching};
ghost use Rattle.session_state.specs.Header.{head_in, with_head};
ghost use Rattle.session_state.specs.Carried.{head_of};
ghost use Rattle.session_state.specs.Commands.{signal_in, input_in, commanded, Tells};

use buffers_memory::Memory;
use buffers_tables::{Panel, Watch};
use clock::Cycle;
use machine_run::Readable;
use machine_slot::Machine;
use session_answers::{CallAnswer, CallRefusal, Reply};

// The session's header: the cycles finished and the watch. Its values in hand stand in the panel alone, where the machine reads them.
#[derive(Clone, Copy)]
pub struct Session {
    pub finished: Cycle,
    pub watch: Watch,
}

// What a command answers, and the new session. Refused or not it hands a session back (01, Where each language form goes), so not by `?`.
#[derive(Clone, Copy)]
pub struct Told {
    pub session: Session,
    pub answer: CallAnswer,
}

// The session that a panel holds. Written back as it is, it changes no byte.
pub fn decode(panel: &Panel) -> Session
    ensures { (head_of result panel.now ≡ head_in panel.now) × (with_head (head_in panel.now) panel.now ≡ panel.now) }
{
    Session {
        finished: buffers_tables::finished(panel),
        watch: buffers_tables::watched(panel),
    }
}

// A signal of the network: 1 to N. `Netlist` has the same test on NET's bytes, which are not there when a call is made. That N is at most
// 4096 is asked of the panel by each command: 44 judged the bytes that C lends, and a setting writes them.
#[tactic(auto, using(logic::proofs::Judged::connected), unfolding(crate::specs::Commands::signal_in))]
fn is_signal(panel: &Panel, signal: u32) -> bool
    ensures { result ≡ signal_in panel.now signal }
{
    (1..=u32::from(buffers_tables::signals(panel))).contains(&signal)
}

// An input of the network: "setting a gate" is refused. The kind is compared as the panel's byte, which 44 judged: a `Kind` would be
// made of it and taken apart at once.
// By `as`, in this file, where the bound is proved: no `From` has this conversion, and `TryFrom` has an error that cannot happen.
#[tactic(auto, using(logic::proofs::Judged::connected), unfolding(crate::specs::Commands::input_in))]
fn is_input(panel: &Panel, signal: u32) -> bool
    requires { signals_in panel.now ≤ 4096 }
    ensures { result ≡ input_in panel.now signal }
{
    is_signal(panel, signal) && buffers_tables::kind(panel, signal as usize) == 1
}

impl Session {
    // The session written into a panel: N, P, C and the signals' numbers, which have the values in hand, stay.
    pub fn encode(self, panel: &mut Panel)
        ensures { panel.new ≡ with_head (head_of self panel.old) panel.old }
    {
        buffers_tables::set_finished(panel, self.finished);
        buffers_tables::set_watch(panel, self.watch);
    }

    // A command that is refused hands the session back as it was.
    fn refused(self, refusal: CallRefusal) -> Told
        ensures { result ≡ record { session = self; answer = Err refusal } }
    {
        Told {
            session: self,
            answer: Err(refusal),
        }
    }

    // "Set an input for the next cycle": its value in hand is replaced in the panel, and no other byte. Refused, none is.
    pub fn set(self, panel: &mut Panel, input: u32, value: u32) -> Told
        requires { signals_in panel.old ≤ 4096 }
        ensures { (program memory : List ℕ) → Tells (commanded panel.old program memory (head_of self panel.old) (setting input value)) result panel.old panel.new }
    {
        if !is_input(panel, input) {
            return self.refused(CallRefusal::NoSuchSignal(input));
        }
        if 3 < value {
            return self.refused(CallRefusal::NoSuchValue(value));
        }
        buffers_tables::set_hand(panel, input as usize, value as u8);
        Told {
            session: self,
            answer: Ok(Reply::Done),
        }
    }

    // "set the one watch (signal, mask 0 to 15 ..)"
    pub fn watch(self, panel: &Panel, signal: u32, mask: u32) -> Told
        requires { signals_in panel.now ≤ 4096 }
        ensures { (program memory : List ℕ) → Tells (commanded panel.now program memory (head_of self panel.now) (watching signal mask)) result panel.now panel.now }
    {
        if !is_signal(panel, signal) {
            return self.refused(CallRefusal::NoSuchSignal(signal));
        }
        if 15 < mask {
            return self.refused(CallRefusal::NoSuchValue(mask));
        }
        Told {
            session: Session {
                watch: Watch {
                    signal: signal as u16,
                    mask: mask as u8,
                },
                ..self
            },
            answer: Ok(Reply::Done),
        }
    }

    // "Reads give the value at the end of the last finished cycle."
    pub fn read(self, readable: &Readable, signal: u32) -> Told
        ensures { (program : List ℕ) → Tells (commanded readable.now.panel.now program readable.now.memory.now (head_of self readable.now.panel.now) (reading signal)) result readable.now.panel.now readable.now.panel.now }
    {
        if !is_signal(readable.panel, signal) {
            return self.refused(CallRefusal::NoSuchSignal(signal));
        }
        let value = readable.value_of(signal as u16);
        Told {
            session: self,
            answer: Ok(Reply::Value(value)),
        }
    }

    // "run k cycles": "It answers the cycles done and whether it stopped".
    pub fn run(self, machine: &Machine, memory: &mut Memory, cycles: u32) -> Told
        requires watching { Watching machine.now.panel.now (watch_of self.watch) }
        requires memory_bytes { MemoryBytes memory.old }
        ensures tells { Tells (commanded machine.now.panel.now machine.now.program.now memory.old (head_of self machine.now.panel.now) (running cycles)) result machine.now.panel.now machine.now.panel.now }
        ensures memory_after { memory.new ≡ with_memory (processors_in machine.now.panel.now) (slots_in machine.now.panel.now) (commanded machine.now.panel.now machine.now.program.now memory.old (head_of self machine.now.panel.now) (running cycles)).state memory.old }
    {
        let finished = self.finished;
        if 65535 - u32::from(finished.0) < cycles {
            return self.refused(CallRefusal::TooManyCycles(finished));
        }
        let ran = machine_run::run(machine, memory, self.watch, Cycle(cycles as u16));
        Told {
            session: Session {
                finished: Cycle(finished.0 + ran.done.0),
                ..self
            },
            answer: Ok(Reply::Ran(ran)),
        }
    }
}
