// The listing, a piece a step (01, Listing): time 0, then every cycle, then the last line.

#![tactic(auto)]

ghost use Rattle.std.specs.Prelude.{◌≡◌, ℕ, ◌+◌};
ghost use Rattle.model.specs.Files.{Files};
ghost use Rattle.model.specs.Acceptance.{panel_limit, Accepted};
ghost use Rattle.model.specs.Stimulus.{stim_count};
ghost use Rattle.file_bytes.specs.Bytes.{bytes_of};
ghost use Rattle.listing.specs.Standing.{Stands, Standing, Gives};

use buffers_memory::Memory;
use buffers_tables::{Panel, Program};
use clock::Cycle;
use file_bytes::FileBytes;
use file_stim::{Cursor, Stimulus};
use gates::TruthTables;
use listing_cycle::{PieceLines, Shown};
use machine_run::Readable;
use machine_slot::Machine;
use session_state::Session;

// A listing on its way: the open session, the next line of STIM, T, and how many pieces were given.
#[derive(Clone, Copy)]
pub struct Lister<'a> {
    pub session: Session,
    pub cursor: Cursor<'a>,
    pub end: Cycle,
    pub pieces: u32,
}

// A piece, which stands in the first bytes of a lent buffer and so is a length here, and the listing after it.
#[derive(Clone, Copy)]
pub struct Piece<'a> {
    pub lister: Lister<'a>,
    pub length: usize,
}

// Opens the listing of accepted files, `lines` being the lines before STIM's end line. No value is shown yet.
pub fn open<'a>(
    files: &FileBytes<'a>,
    lines: u16,
    panel: &mut Panel,
    program: &mut Program,
    memory: &mut Memory,
    shown: &mut Shown,
) -> Lister<'a>
    requires accepted { Accepted panel_limit (bytes_of files.now) }
    requires lines_value { lines ≡ stim_count files.now.stim.now }
    ensures { Stands (bytes_of files.now) 0 result panel.new program.new memory.new shown.new }
{
    buffers_load::load(files, panel, program, memory);
    // 4 is no value, so that each is shown at time 0.
    shown.fill(4);
    let session = session_state::decode(panel);
    let stim = Stimulus { bytes: files.stim };
    let cursor = listing_cycle::first_later(stim);
    let end = listing_cycle::end_time(stim, lines);
    Lister {
        session,
        cursor,
        end,
        pieces: 0,
    }
}

// How many pieces a listing up to T has: time 0, the cycles, the last line.
pub fn piece_count(end: Cycle) -> u32
    ensures { result ≡ end.0 + 2 }
{
    u32::from(end.0) + 2
}

impl<'a> Lister<'a> {
    // The next piece: time 0; or the settings of the next time, one cycle and its changes; or the last line. How many pieces were given
    // says which. The definition goes by these three cases of one count (`piece_at`), and a closure for each would say no more.
    // The buffers are lent at each step: what it promises (`Stands`, `Gives`) is of their bytes, which a `Lister` with the buffers in it
    // would hide.
    // By `as`, in this file, where the bound is proved: no `From` has this conversion, and `TryFrom` has an error that cannot happen.
    pub fn step(
        self,
        tables: &TruthTables,
        panel: &mut Panel,
        program: &Program,
        memory: &mut Memory,
        shown: &mut Shown,
        out: &mut PieceLines,
    ) -> Piece<'a>
        requires { Standing self panel.old program.now memory.old shown.old }
        ensures { (files : Files) (k : ℕ) → Stands files k self.entry panel.old program.now memory.old shown.old → Gives files k out.old result out.new panel.new program.now memory.new shown.new }
    {
        if u32::from(self.end.0) < self.pieces {
            let length = writing::write_line(out, 0, &[self.end.0, 0, 0]);
            let lister = Lister {
                pieces: self.pieces + 1,
                ..self
            };
            return Piece { lister, length };
        }
        let time = Cycle(self.pieces as u16);
        if self.pieces == 0 {
            let length = listing_cycle::write_changes(
                time,
                &Readable { panel, memory },
                shown,
                out,
            );
            let lister = Lister { pieces: 1, ..self };
            return Piece { lister, length };
        }
        let mut cursor = self.cursor;
        let session = listing_cycle::take_settings(self.session, &mut cursor, time, panel);
        let machine = Machine::new(tables, panel, program);
        let session = listing_cycle::run_one(session, &machine, memory);
        let length = listing_cycle::write_changes(time, &Readable { panel, memory }, shown, out);
        let lister = Lister {
            session,
            cursor,
            pieces: self.pieces + 1,
            ..self
        };
        Piece { lister, length }
    }
}
