// The listing program: it reads NET, MOD and STIM in the working folder and prints the listing, or the first refusal (01, Listing,
// Refusals). Nothing else is printed.

#![tactic(auto)]

ghost use Rattle.std.specs.Prelude.{◌≡◌, ◌≤◌, length, take, is_err};
ghost use Rattle.model.specs.Files.{files_of};
ghost use Rattle.model.specs.Stimulus.{stim_count};
ghost use Rattle.model.specs.Acceptance.{panel_limit, file_check};
ghost use Rattle.file_lines.specs.Answer.{Answers};
ghost use Rattle.file_checks.specs.Answer.{file_refusal};
ghost use Rattle.file_bytes.specs.Bytes.{bytes_of};
ghost use Rattle.listing_print.specs.Handing.{unprinted, parts_of, Handing};
ghost use Rattle.cavundir.specs.Output.{RunPrints};

use file_bytes::FileBytes;
use file_checks::{FileRefusal, check_mod, check_net, check_stim};
use file_reading::read_file;
use listing_print::{CutShort, Printed, print_listing, print_refusal, zeroed};
use netlist::Netlist;
use std::fs::File;
use std::rt::Files;

// How many bytes were read of each file. The buffers are lent beside it: a struct of both would be lent whole, where NET is read while MOD
// is filled.
#[derive(Clone, Copy)]
struct Read {
    net: usize,
    modfile: usize,
    stim: usize,
}

impl Read {
    // The bytes that were read, in their buffers.
    fn of<'a>(&self, net: &'a [u8], modfile: &'a [u8], stim: &'a [u8]) -> FileBytes<'a>
        requires within { (self.now.net ≤ length net.now) × (self.now.modfile ≤ length modfile.now) × (self.now.stim ≤ length stim.now) }
        ensures { bytes_of result ≡ files_of (take self.now.net net.now) (take self.now.modfile modfile.now) (take self.now.stim stim.now) }
    {
        FileBytes {
            net: &net[..self.net],
            modfile: &modfile[..self.modfile],
            stim: &stim[..self.stim],
        }
    }
}

// "Order: NET, MOD, STIM": the answer of each check is taken apart by let-else before the next file is read (01, Where each language form
// goes). Let-else binds no error, so `unwrap_err` takes it from the answer. How much was read is answered on every way out, which a `?`
// would not do.
fn read_checked(
    rt: &impl Files<File = File>,
    net: &mut [u8],
    modfile: &mut [u8],
    stim: &mut [u8],
) -> (Read, Result<u16, FileRefusal>)
    ensures within { (result.0.net ≤ length net.new) × (result.0.modfile ≤ length modfile.new) × (result.0.stim ≤ length stim.new) }
    ensures answers { Answers file_refusal (stim_count (take result.0.stim stim.new)) (file_check panel_limit (files_of (take result.0.net net.new) (take result.0.modfile modfile.new) (take result.0.stim stim.new))) result.1 }
{
    let mut read = Read {
        net: 0,
        modfile: 0,
        stim: 0,
    };
    read.net = read_file(rt, b"NET", net);
    let first = check_net(&net[..read.net]);
    let Ok(()) = first else {
        return (read, Err(first.unwrap_err()));
    };
    let netlist = Netlist::new(&net[..read.net]);
    read.modfile = read_file(rt, b"MOD", modfile);
    let second = check_mod(&netlist, &modfile[..read.modfile]);
    let Ok(()) = second else {
        return (read, Err(second.unwrap_err()));
    };
    read.stim = read_file(rt, b"STIM", stim);
    (read, check_stim(&netlist, &stim[..read.stim]))
}

// Prints what the files in the working folder say: the first refusal, or the listing.
fn run(
    rt: &(impl Files<File = File> + Print),
    net: &mut [u8],
    modfile: &mut [u8],
    stim: &mut [u8],
    printed: Printed,
) -> (Read, Result<Printed, CutShort>)
    requires { printed ≡ unprinted }
    ensures handed { Handing (files_of (take result.0.net net.new) (take result.0.modfile modfile.new) (take result.0.stim stim.new)) (parts_of result.1) (is_err result.1) }
    ensures prints { RunPrints (files_of (take result.0.net net.new) (take result.0.modfile modfile.new) (take result.0.stim stim.new)) (parts_of result.1) (is_err result.1) }
{
    let (read, checked) = read_checked(rt, net, modfile, stim);
    let files = read.of(net, modfile, stim);
    let printed = match checked {
        Ok(lines) => print_listing(rt, &files, lines, printed),
        Err(refusal) => print_refusal(rt, &files, refusal, printed),
    };
    (read, printed)
}

// A file is read up to one byte more than it may have: such a byte is surplus, whatever follows it. A write that failed is told to nobody:
// the program has nothing but its output to tell it by.
fn main(rt: HostRuntime) {
    let mut net = zeroed::<299082>();
    let mut modfile = zeroed::<348246>();
    let mut stim = zeroed::<1245147>();
    let _ = run(&rt, &mut net, &mut modfile, &mut stim, Printed::new());
}
