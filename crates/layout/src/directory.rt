// The CodeDirectory, a blob of the signature, big-endian: a head whose size follows from the version, the identifier,
// and the slots, each the hash of one thing: the special slots end at hashOffset, and the code slots start there.
ghost use Rattle.std.specs.Prelude.{◌≡◌, ◌*◌, ◌<◌, ◌≤◌, ◌^◌};
ghost use Rattle.layout.specs.CodeDirectory.{DirectoryRead, width_of};

use super::kinds::HashKind;

// The fields of the head that document 01 lists, in their order. Offsets count from the directory's start.
#[derive(Clone, Copy)]
pub struct CodeDirectory {
    pub version: usize,
    pub flags: usize,
    pub hash_offset: usize,
    pub ident_offset: usize,
    pub special_slots: usize,
    pub code_slots: usize,
    // `codeLimit` in Apple's header: one of the two fields of which the code limit is chosen.
    pub code_limit32: usize,
    pub hash_size: usize,
    pub hash_type: usize,
    pub platform: usize,
    // The page size is 2 to this, or the whole code limit where this is 0 (`pageSize` in Apple's header).
    pub page_shift: usize,
    // Fields from version 0x20100 and from 0x20300 on. In an older directory these bytes are something else.
    pub scatter_offset: usize,
    pub code_limit64: u64,
}

impl CodeDirectory {
    // CSMAGIC_CODEDIRECTORY
    pub const MAGIC: usize = 0xFADE0C02;

    // The slot type of the directory that is checked (CSSLOT_CODEDIRECTORY).
    pub const TYPE: u32 = 0;

    // Bytes of a slot of each kind.
    pub const SHA1_SLOT: usize = 20;

    pub const SHA256_SLOT: usize = 32;

    pub const SHA256_TRUNCATED_SLOT: usize = 20;

    pub const SHA384_SLOT: usize = 48;

    // The flags that a directory may hold (CS_ALLOWED_MACHO): ADHOC, HARD, KILL, CHECK_EXPIRATION, RESTRICT, ENFORCEMENT, REQUIRE_LV,
    // RUNTIME and LINKER_SIGNED.
    pub const ALLOWED_FLAGS: usize = 0x33F02;

    // Bytes of the head, which grew with the version: the earliest, with scatter, with team, with codeLimit64, with the executable
    // segment, with the pre-encryption offset, with linkage (Apple's end_ marks).
    pub const HEAD_EARLIEST: usize = 44;

    pub const HEAD_SCATTER: usize = 48;

    pub const HEAD_TEAM: usize = 52;

    pub const HEAD_CODE_LIMIT64: usize = 64;

    pub const HEAD_EXEC_SEGMENT: usize = 88;

    pub const HEAD_PRE_ENCRYPT: usize = 96;

    pub const HEAD_LINKAGE: usize = 108;

    // Bytes that hold the version.
    pub const VERSION_END: usize = 12;

    // Bytes of a slot, by the number of the hash kind; 0 for one that is not known, as `width_of` has it.
    pub fn slot_width(kind: usize) -> usize
        ensures { (result ≡ width_of kind) × (result ≤ 48) }
    {
        match HashKind::of(kind) {
            Some(kind) => kind.width(),
            None => 0,
        }
    }

    // Bytes of n slots. The product of a width and a count is one unknown to the prover's arithmetic, so it is taken here alone.
    pub fn slot_bytes(kind: usize, n: usize) -> usize
        requires { width_of kind * n < 2 ^ 64 }
        ensures { result ≡ width_of kind * n }
    {
        CodeDirectory::slot_width(kind) * n
    }

    // The directory whose blob is d.
    pub fn read(d: &[u8]) -> CodeDirectory
        ensures { DirectoryRead d.now result }
    {
        CodeDirectory {
            version: endian::be32(d, 0, 8),
            flags: endian::be32(d, 0, 12),
            hash_offset: endian::be32(d, 0, 16),
            ident_offset: endian::be32(d, 0, 20),
            special_slots: endian::be32(d, 0, 24),
            code_slots: endian::be32(d, 0, 28),
            code_limit32: endian::be32(d, 0, 32),
            hash_size: endian::byte(d, 0, 36),
            hash_type: endian::byte(d, 0, 37),
            platform: endian::byte(d, 0, 38),
            page_shift: endian::byte(d, 0, 39),
            scatter_offset: endian::be32(d, 0, 44),
            code_limit64: endian::be64(d, 0, 56),
        }
    }
}
