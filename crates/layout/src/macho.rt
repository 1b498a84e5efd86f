// The Mach-O header of a 64-bit file, little-endian, and its load commands. The commands stand behind the header, each where the one
// before ends. The one of type LC_CODE_SIGNATURE says where the signature lies in the file.
ghost use Rattle.layout.specs.MachO.{HeaderRead, CommandRead, LinkeditRead};

// The header (`mach_header_64`), of which three fields are read: the magic, the number of commands and the bytes that they take.
#[derive(Clone, Copy)]
pub struct MachHeader {
    pub magic: usize,
    pub ncmds: usize,
    pub sizeofcmds: usize,
}

impl MachHeader {
    // MH_MAGIC_64
    pub const MAGIC: usize = 0xFEEDFACF;

    // Bytes of the header; the commands start behind it.
    pub const HEAD: usize = 32;

    pub fn read(file: &[u8]) -> MachHeader
        ensures { HeaderRead file.now result }
    {
        MachHeader {
            magic: endian::le32(file, 0, 0),
            ncmds: endian::le32(file, 0, 16),
            sizeofcmds: endian::le32(file, 0, 20),
        }
    }
}

// What every load command opens with (`load_command`): its type and its size, which includes these bytes.
#[derive(Clone, Copy)]
pub struct LoadCommand {
    pub cmd: usize,
    pub cmdsize: usize,
}

impl LoadCommand {
    pub const HEAD: usize = 8;

    // A size is a multiple of this.
    pub const ALIGN: usize = 8;

    // LC_CODE_SIGNATURE
    pub const CODE_SIGNATURE: usize = 0x1D;

    // The command that starts at `at`.
    pub fn read(file: &[u8], at: usize) -> LoadCommand
        ensures { CommandRead file.now at result }
    {
        LoadCommand {
            cmd: endian::le32(file, at, 0),
            cmdsize: endian::le32(file, at, 4),
        }
    }
}

// A command that names a part of the file (`linkedit_data_command`), as LC_CODE_SIGNATURE does: the part's start and its length.
#[derive(Clone, Copy)]
pub struct LinkeditData {
    pub dataoff: usize,
    pub datasize: usize,
}

impl LinkeditData {
    // Bytes of the command.
    pub const SIZE: usize = 16;

    // The command that starts at `at`.
    pub fn read(file: &[u8], at: usize) -> LinkeditData
        ensures { LinkeditRead file.now at result }
    {
        LinkeditData {
            dataoff: endian::le32(file, at, 8),
            datasize: endian::le32(file, at, 12),
        }
    }
}
