// The bytes of the three files together, as the checks, the opening and the listing take them.

#![tactic(auto)]

// The bytes of each file, lent.
#[derive(Clone, Copy)]
pub struct FileBytes<'a> {
    pub net: &'a [u8],
    pub modfile: &'a [u8],
    pub stim: &'a [u8],
}
