// The opening of a session, and the check of its files alone (01, Session). `cavundir_panel_c` exports them for C.

#![tactic(auto)]

ghost use Rattle.std.specs.Prelude.{◌≡◌, length};
ghost use Rattle.model.specs.Files.{files_of};
ghost use Rattle.model.specs.Acceptance.{panel_limit, file_check};
ghost use Rattle.buffers_load_files.specs.Loaded.{panel_of, program_of, opening_bytes};
ghost use Rattle.session_answers.specs.Answers.{check_bits};
ghost use Rattle.session_opening.specs.Opened.{opening_check_lent, cleared, left_by};

use file_bytes::FileBytes;
use file_lines::Refusal;
use session_answers::CallRefusal;

// The working buffers all zero.
fn clear_all(panel: &mut [u8], program: &mut [u8], memory: &mut [u8])
    ensures panel_after { panel.new ≡ cleared (length panel.old) }
    ensures program_after { program.new ≡ cleared (length program.old) }
    ensures memory_after { memory.new ≡ cleared (length memory.old) }
{
    panel.fill(0);
    program.fill(0);
    memory.fill(0);
}

// "A refused opening leaves the working buffers all zero, as far as they were lent to it."
fn refuse<R: Refusal>(refusal: R, panel: &mut [u8], program: &mut [u8], memory: &mut [u8]) -> u64
    ensures value { result ≡ check_bits (R.refusal refusal) }
    ensures panel_after { panel.new ≡ cleared (length panel.old) }
    ensures program_after { program.new ≡ cleared (length program.old) }
    ensures memory_after { memory.new ≡ cleared (length memory.old) }
{
    clear_all(panel, program, memory);
    session_answers::check_bits(Err(refusal))
}

// Opens a session on three files: 40 comes before all file refusals, and accepted files write every byte of the buffers.
// One test judges the three lengths, as 40 does, and then each buffer is an array. By `ok_or` and `?` there would be an inner function with
// refusals of its own, 40 or one of the files'.
pub fn open(
    net: &[u8],
    modfile: &[u8],
    stim: &[u8],
    panel: &mut [u8],
    program: &mut [u8],
    memory: &mut [u8],
) -> u64
    ensures answer { result ≡ check_bits (opening_check_lent panel_limit (files_of net.now modfile.now stim.now) panel.old program.old memory.old) }
    ensures panel { panel.new ≡ left_by (opening_check_lent panel_limit (files_of net.now modfile.now stim.now) panel.old program.old memory.old) (panel_of (files_of net.now modfile.now stim.now)) panel.old }
    ensures program { program.new ≡ left_by (opening_check_lent panel_limit (files_of net.now modfile.now stim.now) panel.old program.old memory.old) (program_of (files_of net.now modfile.now stim.now)) program.old }
    ensures memory { memory.new ≡ left_by (opening_check_lent panel_limit (files_of net.now modfile.now stim.now) panel.old program.old memory.old) (opening_bytes (files_of net.now modfile.now stim.now)) memory.old }
{
    if !buffers_lengths::lengths_right(panel, program, memory) {
        return refuse(CallRefusal::WrongLength, panel, program, memory);
    }
    let files = FileBytes { net, modfile, stim };
    let Err(refusal) = file_checks::check_files(&files) else {
        buffers_load::load(
            &files,
            panel.as_mut_array().unwrap(),
            program.as_mut_array().unwrap(),
            memory.as_mut_array().unwrap(),
        );
        return 0;
    };
    refuse(refusal, panel, program, memory)
}

// The check of the three files alone, in the opening's bits: 0 where they are accepted, else the refusal.
pub fn check(net: &[u8], modfile: &[u8], stim: &[u8]) -> u64
    ensures answer { result ≡ check_bits (file_check panel_limit (files_of net.now modfile.now stim.now)) }
{
    let Err(refusal) = file_checks::check_files(&FileBytes { net, modfile, stim }) else {
        return 0;
    };
    session_answers::check_bits(Err(refusal))
}
