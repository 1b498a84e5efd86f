// A load command of a file, and what is tested of one.
ghost use Rattle.std.specs.Prelude.{◌≡◌, ◌+◌, ◌*◌, ◌<◌, ◌≤◌};
ghost use Rattle.refusals.specs.Refusals.{holds};
ghost use Rattle.layout.specs.MachO.{mach_head, command_at, cmd, cmdsize};
ghost use Rattle.macho.specs.Rows.{most_commands, malformed, is_signature, wrong_signature, area_end};

use layout::macho::{LinkeditData, LoadCommand, MachHeader};

// Its position among the commands, and where it starts: no further than the header and the most commands reach, each with a size of 32
// bits, so that no sum wraps, whatever the bytes are.
#[derive(Clone, Copy)]
pub struct Command<'a> {
    pub file: &'a [u8],
    pub index: usize,
    pub at: usize,
    pub ghost stands: { at ≡ command_at file.now index },
    pub ghost near: { at ≤ mach_head + 4294967296 * most_commands },
}

impl<'a> Command<'a> {
    // Its head or it reaches past the stated area or the file, or its size is under 8 or no multiple of 8.
    pub fn is_malformed(self) -> bool
        ensures { result ≡ holds (malformed self.entry.file.now self.entry.index) }
    {
        let end = area_end(self.file);
        let head = self.at + LoadCommand::HEAD;
        let size = self.size();
        end < head
            || self.file.len() < head
            || size < LoadCommand::HEAD
            || end < self.at + size
            || size % LoadCommand::ALIGN != 0
            || self.file.len() < self.at + size
    }

    pub fn is_signature(self) -> bool
        ensures { result ≡ holds (is_signature self.entry.file.now self.entry.index) }
    {
        LoadCommand::read(self.file, self.at).cmd == LoadCommand::CODE_SIGNATURE
    }

    // It is an LC_CODE_SIGNATURE, and stands behind the first of them or has another size.
    pub fn is_wrong_signature(self, earliest: usize) -> bool
        ensures { result ≡ holds (wrong_signature self.entry.file.now earliest self.entry.index) }
    {
        let second = earliest < self.index;
        self.is_signature() && (second || self.size() != LinkeditData::SIZE)
    }

    pub fn size(self) -> usize
        ensures { (result ≡ cmdsize self.entry.file.now self.entry.index) × (result < 4294967296) }
    {
        LoadCommand::read(self.file, self.at).cmdsize
    }
}

// Where the stated command area ends.
fn area_end(file: &[u8]) -> usize
    ensures { result ≡ area_end file.now }
{
    MachHeader::HEAD + MachHeader::read(file).sizeofcmds
}
