// The three file checks one after the other, and the line of a refusal.

#![tactic(auto)]

ghost use Rattle.std.specs.Prelude.{◌≡◌, ◌≤◌, length};
ghost use Rattle.std.proofs.lemmas.List.Edits.{sets};
ghost use Rattle.model.specs.Refusal.{Check, fail};
ghost use Rattle.model.specs.Netlist.{network, net_check};
ghost use Rattle.model.specs.ModuleFile.{mod_check};
ghost use Rattle.model.specs.Stimulus.{stim_check, stim_count};
ghost use Rattle.model.specs.Acceptance.{panel_limit, file_check};
ghost use Rattle.file_bytes.specs.Bytes.{bytes_of};
ghost use Rattle.file_lines.specs.Answer.{answered, Answers};
ghost use Rattle.file_checks.specs.Answer.{file_refusal};
ghost use Rattle.file_checks.specs.Refused.{refused_text};

use file_bytes::FileBytes;
use file_lines::Refusal;
use file_mod_lines::ModRefusal;
use file_net::NetRefusal;
use file_stim::StimRefusal;
use netlist::Netlist;

// What the files are refused for: the first refusal, in their order.
#[derive(Clone, Copy, Debug, PartialEq, Eq)]
pub enum FileRefusal {
    Net(NetRefusal),
    Mod(ModRefusal),
    Stim(StimRefusal),
}

impl Refusal for FileRefusal {
    ghost use Rattle.file_checks.specs.Answer.{file_refusal};

    ghost refusal = { file_refusal };

    fn told(self) -> (u8, u32) {
        match self {
            FileRefusal::Net(refusal) => refusal.told(),
            FileRefusal::Mod(refusal) => refusal.told(),
            FileRefusal::Stim(refusal) => refusal.told(),
        }
    }
}

impl From<NetRefusal> for FileRefusal {
    ghost use Rattle.file_checks.specs.declared.FileRefusal.TheVariants.{Net};

    ghost from_gives = { λ refusal result. result ≡ Net refusal };

    fn from(refusal: NetRefusal) -> FileRefusal {
        FileRefusal::Net(refusal)
    }
}

impl From<ModRefusal> for FileRefusal {
    ghost use Rattle.file_checks.specs.declared.FileRefusal.TheVariants.{Mod};

    ghost from_gives = { λ refusal result. result ≡ Mod refusal };

    fn from(refusal: ModRefusal) -> FileRefusal {
        FileRefusal::Mod(refusal)
    }
}

impl From<StimRefusal> for FileRefusal {
    ghost use Rattle.file_checks.specs.declared.FileRefusal.TheVariants.{Stim};

    ghost from_gives = { λ refusal result. result ≡ Stim refusal };

    fn from(refusal: StimRefusal) -> FileRefusal {
        FileRefusal::Stim(refusal)
    }
}

// NET's check, by the panel's limit.
pub fn check_net(net: &[u8]) -> Result<(), FileRefusal>
    ensures { Answers file_refusal tt (net_check panel_limit net.now) result }
{
    file_net::check_net(net, 4096)?;
    Ok(())
}

// MOD's check, NET being accepted.
pub fn check_mod(net: &Netlist, modfile: &[u8]) -> Result<(), FileRefusal>
    ensures { Answers file_refusal tt (mod_check (network net.now.net.now) modfile.now) result }
{
    file_mod::check_mod(net, modfile)?;
    Ok(())
}

// STIM's check, NET being accepted: how many lines stand before its end line.
pub fn check_stim(net: &Netlist, stim: &[u8]) -> Result<u16, FileRefusal>
    ensures { Answers file_refusal (stim_count stim.now) (stim_check (network net.now.net.now) stim.now) result }
{
    Ok(file_stim::check_stim(net, stim)?)
}

// "Order: NET, MOD, STIM." The first that breaks its conditions is refused, before the next is read: taken apart by let-else there, and not
// by `?`, as document 01 names it.
pub fn check_files(files: &FileBytes) -> Result<(), FileRefusal>
    ensures { answered file_refusal result ≡ file_check panel_limit (bytes_of files.now) }
{
    let first = check_net(files.net);
    let Ok(()) = first else {
        return first;
    };
    let net = Netlist::new(files.net);
    let second = check_mod(&net, files.modfile);
    let Ok(()) = second else {
        return second;
    };
    check_stim(&net, files.stim)?;
    Ok(())
}

// A refusal that one line of two fields tells.
pub trait Printable {
    // What the line says, as a check.
    ghost said: { Self → Check };

    // Its number and what it returns, a field each.
    fn fields(self) -> (u8, u16)
        ensures { said self ≡ fail result.0 result.1 };
}

// What is returned is told in 32 bits, as the session's calls return signals of 32; what a file returns is a line or a signal below 65536,
// which is proved here. So by `as`: no `From` has this conversion, and `TryFrom` has an error that cannot happen.
impl Printable for FileRefusal {
    ghost use Rattle.file_checks.specs.Answer.{file_refusal};

    ghost said = { file_refusal };

    fn fields(self) -> (u8, u16) {
        let (number, returned) = self.told();
        (number, returned as u16)
    }
}

// Any number with any returned value.
impl Printable for (u8, u16) {
    ghost said = { λ told. fail told.0 told.1 };

    fn fields(self) -> (u8, u16) {
        (self.0, self.1)
    }
}

// "prints one line of two fields, number and returned value": nothing where the files are accepted, which is promised, too, so that an
// answer is taken and not a refusal alone.
pub fn write_refusal<R: Printable>(answer: Result<(), R>, out: &mut [u8]) -> usize
    requires { 13 ≤ length out.old }
    ensures value { result ≡ length (refused_text (answered R.said answer)) }
    ensures out_after { out.new ≡ sets out.old 0 (refused_text (answered R.said answer)) }
{
    let Err(refusal) = answer else {
        return 0;
    };
    let (number, returned) = refusal.fields();
    writing::write_line(out, 0, &[u16::from(number), returned])
}
