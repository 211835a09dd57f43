// 44 (01, Refusals), of the panel: the session's numbers, and those of each signal.

#![tactic(auto)]

ghost use Rattle.std.specs.Prelude.{◌≡◌, ◌+◌, ◌-◌, ◌*◌, ◌≤◌, leb};
ghost use Rattle.logic.specs.Test.{◌and◌, all};
ghost use Rattle.buffers_tables.specs.Panel.{panel_stride, signal_start};
ghost use Rattle.buffers_runs.specs.Zeros.{zeros};
ghost use Rattle.buffers_range_panel.specs.Ranges.{head_ranged, codes_ranged, signal_ranged, panel_ranged};

use buffers_tables::{CODES, PANEL_STRIDE, Panel};

// A number from 1 up to a limit. A function, since with `contains` at each of the five tests the proofs of the head and of a signal do not
// close.
#[tactic(auto, using(logic::proofs::Judged::connected))]
fn counted(x: u16, most: u16) -> bool
    ensures { result ≡ leb 1 x and leb x most }
{
    (1..=most).contains(&x)
}

// The session's numbers: "N (1 to 4096)", "P (1 to 16), C (1 to 256)", and the watch.
#[tactic(auto, using(logic::proofs::Judged::connected), unfolding(crate::specs::Ranges::head_ranged))]
fn head_right(panel: &Panel) -> bool
    ensures { result ≡ head_ranged panel.now }
{
    let signals = buffers_tables::signals(panel);
    let watch = buffers_tables::watched(panel);
    counted(signals, 4096)
        && counted(u16::from(buffers_tables::processors(panel)), 16)
        && counted(buffers_tables::slots(panel), 256)
        && counted(watch.signal, signals)
        && watch.mask <= 15
}

// The codes of a signal: zeros of an input, codes that are supplied of a gate. The kind is judged and compared as a number, as in the
// definitions: `Kind` is of the files, and one would be made for two tests and thrown away.
#[tactic(auto, using(logic::proofs::Judged::connected), unfolding(crate::specs::Ranges::codes_ranged))]
fn codes_right(panel: &Panel, signal: usize) -> bool
    requires { signal ≤ 4096 }
    ensures { result ≡ codes_ranged panel.now signal }
{
    let at = PANEL_STRIDE * signal;
    if buffers_tables::kind(panel, signal) == 1 {
        buffers_runs::all_zero(panel, at + CODES, 6)
    } else {
        gates::is_function(u16::from(panel[at + CODES]))
            && buffers_runs::all_translations(panel, at + (CODES + 1), 5)
    }
}

// The numbers of a signal: kind, codes, value in hand, and its place among P processors and C slots.
#[tactic(auto, using(logic::proofs::Judged::connected), unfolding(crate::specs::Ranges::signal_ranged))]
fn signal_right(panel: &Panel, signal: usize) -> bool
    requires { signal ≤ 4096 }
    ensures { result ≡ signal_ranged panel.now signal }
{
    counted(u16::from(buffers_tables::kind(panel, signal)), 3)
        && codes_right(panel, signal)
        && buffers_tables::hand(panel, signal) <= 3
        && buffers_tables::place_processor(panel, signal) < buffers_tables::processors(panel)
        && u16::from(buffers_tables::place_slot(panel, signal)) < buffers_tables::slots(panel)
}

// Signals 1 to N, and zeros above N. They are counted from 0, as `panel_ranged` counts them.
#[tactic(auto, using(logic::proofs::Judged::connected))]
fn signals_right(panel: &Panel, signals: usize) -> bool
    requires { signals ≤ 4096 }
    ensures { result ≡ all signals (λ k. signal_ranged panel.now (k + 1)) and zeros panel.now (signal_start (signals + 1)) (panel_stride * (4096 - signals)) }
{
    (0..signals).all(|k| signal_right(panel, k + 1))
        && buffers_runs::all_zero(
            panel,
            PANEL_STRIDE * (signals + 1),
            PANEL_STRIDE * (4096 - signals),
        )
}

// The panel: its head, signals 1 to N, and zeros above N.
#[tactic(auto, using(logic::proofs::Judged::connected, crate::proofs::Numbers::head_signals), unfolding(crate::specs::Ranges::panel_ranged))]
pub fn panel_right(panel: &Panel) -> bool
    ensures { result ≡ panel_ranged panel.now }
{
    head_right(panel) && signals_right(panel, usize::from(buffers_tables::signals(panel)))
}
