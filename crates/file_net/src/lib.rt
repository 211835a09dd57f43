// NET: its refusals 10 to 13, judged on the bytes in place.

#![tactic(auto)]

ghost use Rattle.std.specs.Prelude.{◌≡◌, ◌≤◌};
ghost use Rattle.model.specs.Netlist.{net_size, net_header, net_surplus, net_chains, net_check};
ghost use Rattle.file_lines.specs.Answer.{Answers};
ghost use Rattle.file_net.specs.Answer.{net_refusal, NetAnswers};
ghost use Rattle.file_net.specs.Stages.{header_laid, net_lines};

use fields::{ends_line, read_field, read_line};
use file_lines::Refusal;
use file_net_chains::first_chain;
use file_net_graph::CheckedLines;
use file_net_line::NetLine;

// Why NET is refused: a line misformed, missing or surplus, one against the layout, one with a wrong source, or a signal
// on a closed chain.
#[derive(Clone, Copy, Debug, PartialEq, Eq)]
pub enum NetRefusal {
    Misformed(u16),
    Layout(u16),
    Sources(u16),
    Chain(u16),
}

impl Refusal for NetRefusal {
    ghost use Rattle.file_net.specs.Answer.{net_refusal};

    ghost refusal = { net_refusal };

    fn told(self) -> (u8, u32) {
        match self {
            NetRefusal::Misformed(line) => (10, u32::from(line)),
            NetRefusal::Layout(line) => (11, u32::from(line)),
            NetRefusal::Sources(line) => (12, u32::from(line)),
            NetRefusal::Chain(signal) => (13, u32::from(signal)),
        }
    }
}

// "0, N (1 to 4096), ten zeros", N being at most the limit.
fn is_header_laid(header: &NetLine, limit: u16) -> bool
    requires { header.now.line ≡ 0 }
    ensures { result ≡ header_laid limit header.now.fields.bytes.now }
{
    header.field(0) == 0 && (1..=limit).contains(&header.field(1)) && header.has_ten_zeros()
}

// Line 1: 10, then 11.
fn check_header(net: &[u8], limit: u16) -> Result<u16, NetRefusal>
    ensures { NetAnswers net.now (net_header limit net.now) result }
{
    read_line(net, 0, 12).ok_or(NetRefusal::Misformed(1))?;
    let header = NetLine::new(net, 0);
    if !is_header_laid(&header, limit) {
        return Err(NetRefusal::Layout(1));
    }
    Ok(header.field(1))
}

// The lines of the signals 1 to N, in order: 10 before 11 before 12 in each, and left at the first fault with its line. A labelled loop
// that is left with its answer is the form that document 01 names, here and for MOD and STIM. N is read once and handed down, here and to
// each line: that it is N is asked of whoever hands it.
fn check_lines(net: &[u8], size: u16) -> Result<(), NetRefusal>
    requires { (size ≡ net_size net.now) × (size ≤ 4096) }
    ensures { Answers net_refusal tt (net_lines net.now) result }
{
    let mut answer = Ok(());
    'lines: for signal in 1..=size {
        let index = usize::from(signal);
        let at = 73 * index;
        for column in 0..12 {
            if read_field(net, at + 6 * column).is_none() {
                answer = Err(NetRefusal::Misformed(signal + 1));
                break 'lines;
            }
        }
        if !ends_line(net, at + 72) {
            answer = Err(NetRefusal::Misformed(signal + 1));
            break 'lines;
        }
        let line = NetLine::new(net, index);
        if !line.is_signal_laid() {
            answer = Err(NetRefusal::Layout(signal + 1));
            break 'lines;
        }
        if !line.are_sources_right(size) {
            answer = Err(NetRefusal::Sources(signal + 1));
            break 'lines;
        }
    }
    answer
}

// A line after the last: 10.
fn check_surplus(net: &[u8], size: u16) -> Result<(), NetRefusal>
    requires { (size ≡ net_size net.now) × (size ≤ 4096) }
    ensures { Answers net_refusal tt (net_surplus net.now) result }
{
    if 73 * (usize::from(size) + 1) < net.len() {
        return Err(NetRefusal::Misformed(size + 2));
    }
    Ok(())
}

// 13: the smallest signal on a closed chain of rank-order gates.
fn check_chains(lines: &CheckedLines) -> Result<(), NetRefusal>
    ensures { Answers net_refusal tt (net_chains lines.now.net.now) result }
{
    match first_chain(lines) {
        Some(signal) => Err(NetRefusal::Chain(signal)),
        None => Ok(()),
    }
}

// The check of NET, N being at most the limit.
pub fn check_net(net: &[u8], limit: u16) -> Result<u16, NetRefusal>
    requires { limit ≤ 4096 }
    ensures { NetAnswers net.now (net_check limit net.now) result }
{
    let size = check_header(net, limit)?;
    check_lines(net, size)?;
    check_surplus(net, size)?;
    check_chains(&CheckedLines::new(net, size))?;
    Ok(size)
}
