// What the program prints, handed part by part to one writer: the one line of a refusal, or the listing (01, Listing, Refusals).

#![tactic(auto)]

ghost use Rattle.std.specs.Prelude.{◌≡◌, ◌+◌, ◌<◌, replicate, is_err, MatchResult};
ghost use Rattle.model.specs.Acceptance.{panel_limit, file_check, Accepted};
ghost use Rattle.model.specs.Stimulus.{stim_count};
ghost use Rattle.file_bytes.specs.Bytes.{bytes_of};
ghost use Rattle.file_checks.specs.Answer.{file_refusal};
ghost use Rattle.listing_print.specs.Handing.{unprinted, part_at, part_count, parts_of, Handing};

use buffers_memory::Memory;
use buffers_tables::{Panel, Program};
use file_bytes::FileBytes;
use file_checks::FileRefusal;
use gates::TruthTables;
use listing_cycle::{PieceLines, Shown};

// How many parts are written of what is printed. The writer takes it by value and gives it back, one more, only for a part that was
// written: it is never copied, so that no part is handed over twice, and none after one that could not be written. That nothing was printed
// before is asked by all who print: `main` makes the one count, and a type for it would be taken apart in `put`. Runtime and files are
// lent beside it at each call, since it is made before a file is read.
#[derive(Drop)]
pub struct Printed {
    pub parts: u32,
}

// A part could not be written: how many were before it.
#[derive(Clone, Copy)]
pub struct CutShort {
    pub parts: u32,
}

impl Printed {
    pub fn new() -> Printed
        ensures { result ≡ unprinted }
    {
        Printed { parts: 0 }
    }

    // The one writer. It takes the next part of what is printed for the files that were read, no other, and counts it if it was written.
    fn put(mut self, rt: &impl Print, files: &FileBytes, part: &[u8]) -> Result<Printed, CutShort>
        requires part_value { part.now ≡ part_at (bytes_of files.now) self.parts }
        requires parts_bound { self.parts < part_count (bytes_of files.now) }
        ensures counted { MatchResult result (λ printed. printed.parts ≡ self.parts + 1) (λ cut. cut.parts ≡ self.parts) }
    {
        rt.write_all(part)
            .map_err(|_| CutShort { parts: self.parts })?;
        self.parts += 1;
        Ok(self)
    }
}

// A buffer of a length. A function, so that proofs over it see this clause alone, and not as many zeros as the files need.
pub fn zeroed<const N: usize>() -> [u8; N]
    ensures { result ≡ replicate N 0 }
{
    [0; N]
}

// "prints one line of two fields, number and returned value". Nothing allocates, so that the text goes into a buffer and has its length
// beside it.
pub fn print_refusal(
    rt: &impl Print,
    files: &FileBytes,
    refusal: FileRefusal,
    printed: Printed,
) -> Result<Printed, CutShort>
    requires refusal_value { file_refusal refusal ≡ file_check panel_limit (bytes_of files.now) }
    requires nothing_yet { printed ≡ unprinted }
    ensures handed { Handing (bytes_of files.now) (parts_of result) (is_err result) }
{
    let mut line = [0; 13];
    let length = file_checks::write_refusal(Err(refusal), &mut line);
    printed.put(rt, files, &line[..length])
}

// The listing, piece by piece, until one can not be written. The tables of the gates are made once and lent to every step. Its buffers
// stand in a frame of its own: inlined into `main`, they would stand above the arrays of the checks, which are done with by then.
#[inline(never)]
pub fn print_listing(
    rt: &impl Print,
    files: &FileBytes,
    lines: u16,
    mut printed: Printed,
) -> Result<Printed, CutShort>
    requires accepted { Accepted panel_limit (bytes_of files.now) }
    requires lines_value { lines ≡ stim_count files.now.stim.now }
    requires nothing_yet { printed ≡ unprinted }
    ensures handed { Handing (bytes_of files.now) (parts_of result) (is_err result) }
{
    let tables = TruthTables::new();
    let mut panel: Panel = zeroed();
    let mut program: Program = zeroed();
    let mut memory: Memory = zeroed();
    let mut shown: Shown = zeroed();
    let mut piece: PieceLines = zeroed();
    let mut lister = listing::open(
        files,
        lines,
        &mut panel,
        &mut program,
        &mut memory,
        &mut shown,
    );
    let count = listing::piece_count(lister.end);
    for _ in 0..count {
        let next = lister.step(
            &tables,
            &mut panel,
            &program,
            &mut memory,
            &mut shown,
            &mut piece,
        );
        printed = printed.put(rt, files, &piece[..next.length])?;
        lister = next.lister;
    }
    Ok(printed)
}
