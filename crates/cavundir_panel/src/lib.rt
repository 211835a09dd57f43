// Every call of the panel (include/cavundir.h). Each hands its arguments to a library below, and its contract is that one's.
// `cavundir_panel_c` exports them for C: an exported function stands in a library of its own, and theorems cite these.

#![tactic(auto)]

ghost use Rattle.std.specs.Prelude.{◌≡◌};
ghost use Rattle.model.specs.Files.{files_of};
ghost use Rattle.model.specs.Acceptance.{panel_limit, file_check};
ghost use Rattle.model.specs.Session.{set as setting, watch as watching, read as reading, run as running};
ghost use Rattle.buffers_load_files.specs.Loaded.{panel_of, program_of, opening_bytes};
ghost use Rattle.session_answers.specs.Answers.{answer_bits, check_bits};
ghost use Rattle.session_answers.specs.Left.{left_after};
ghost use Rattle.session_opening.specs.Opened.{opening_check_lent, left_by};
ghost use Rattle.session_calls.specs.Reply.{buffers_of, reply};
ghost use Rattle.traces.specs.Turned.{turned, turned_back};
ghost use Rattle.traces.specs.Checks.{turn_check, turn_back_check};
ghost use Rattle.charts.specs.Text.{page_text, printed_on};
ghost use Rattle.charts.specs.Checks.{chart_check};

// Checks three files, and writes nothing.
pub fn cavundir_check_files(net: &[u8], modfile: &[u8], stim: &[u8]) -> u64
    ensures answer { result ≡ check_bits (file_check panel_limit (files_of net.now modfile.now stim.now)) }
{
    session_opening::check(net, modfile, stim)
}

// Opens a session on three files.
pub fn cavundir_open(
    net: &[u8],
    modfile: &[u8],
    stim: &[u8],
    panel: &mut [u8],
    program: &mut [u8],
    memory: &mut [u8],
) -> u64
    ensures answer { result ≡ check_bits (opening_check_lent panel_limit (files_of net.now modfile.now stim.now) panel.old program.old memory.old) }
    ensures panel { panel.new ≡ left_by (opening_check_lent panel_limit (files_of net.now modfile.now stim.now) panel.old program.old memory.old) (panel_of (files_of net.now modfile.now stim.now)) panel.old }
    ensures program { program.new ≡ left_by (opening_check_lent panel_limit (files_of net.now modfile.now stim.now) panel.old program.old memory.old) (program_of (files_of net.now modfile.now stim.now)) program.old }
    ensures memory { memory.new ≡ left_by (opening_check_lent panel_limit (files_of net.now modfile.now stim.now) panel.old program.old memory.old) (opening_bytes (files_of net.now modfile.now stim.now)) memory.old }
{
    session_opening::open(net, modfile, stim, panel, program, memory)
}

// Sets an input for the next cycle.
pub fn cavundir_set(panel: &mut [u8], program: &[u8], memory: &[u8], signal: u32, value: u32) -> u64
    ensures answer { result ≡ answer_bits (reply (buffers_of panel.old program.now memory.now) (setting signal value)).answer }
    ensures left { (reply (buffers_of panel.old program.now memory.now) (setting signal value)).buffers ≡ buffers_of panel.new program.now memory.now }
{
    session_calls::set(panel, program, memory, signal, value)
}

// Sets the one watch.
pub fn cavundir_watch(
    panel: &mut [u8],
    program: &[u8],
    memory: &[u8],
    signal: u32,
    mask: u32,
) -> u64
    ensures answer { result ≡ answer_bits (reply (buffers_of panel.old program.now memory.now) (watching signal mask)).answer }
    ensures left { (reply (buffers_of panel.old program.now memory.now) (watching signal mask)).buffers ≡ buffers_of panel.new program.now memory.now }
{
    session_calls::watch(panel, program, memory, signal, mask)
}

// Reads a signal.
pub fn cavundir_read(panel: &[u8], program: &[u8], memory: &[u8], signal: u32) -> u64
    ensures answer { result ≡ answer_bits (reply (buffers_of panel.now program.now memory.now) (reading signal)).answer }
    ensures left { (reply (buffers_of panel.now program.now memory.now) (reading signal)).buffers ≡ buffers_of panel.now program.now memory.now }
{
    session_calls::read(panel, program, memory, signal)
}

// Runs `cycles` cycles, or fewer where the watch stops it.
pub fn cavundir_run(panel: &mut [u8], program: &[u8], memory: &mut [u8], cycles: u32) -> u64
    ensures answer { result ≡ answer_bits (reply (buffers_of panel.old program.now memory.old) (running cycles)).answer }
    ensures left { (reply (buffers_of panel.old program.now memory.old) (running cycles)).buffers ≡ buffers_of panel.new program.now memory.new }
{
    session_calls::run(panel, program, memory, cycles)
}

// Turns the recorded values of one signal into a block.
pub fn cavundir_turn(values: &[u8], block: &mut [u8], count: u32) -> u64
    ensures answer { result ≡ check_bits (turn_check values.now block.old count) }
    ensures block { block.new ≡ left_after (turn_check values.now block.old count) (turned values.now count) block.old }
{
    traces::turn(values, block, count)
}

// Turns a block back into the values of one signal.
pub fn cavundir_turn_back(block: &[u8], values: &mut [u8], count: u32) -> u64
    ensures answer { result ≡ check_bits (turn_back_check block.now values.old count) }
    ensures values { values.new ≡ left_after (turn_back_check block.now values.old count) (turned_back block.now count) values.old }
{
    traces::turn_back(block, values, count)
}

// Prints a chart page into a buffer.
pub fn cavundir_chart(
    signals: &[u8],
    values: &[u8],
    page: &mut [u8],
    count: u32,
    first: u32,
    cycles: u32,
) -> u64
    ensures answer { result ≡ check_bits (chart_check signals.now values.now page.old count first cycles) }
    ensures page { page.new ≡ left_after (chart_check signals.now values.now page.old count first cycles) (printed_on page.old (page_text signals.now values.now count first cycles)) page.old }
{
    charts::chart(signals, values, page, count, first, cycles)
}
