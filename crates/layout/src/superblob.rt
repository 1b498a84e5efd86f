// The SuperBlob of a signature, big-endian: magic, length and count, then an index of `count` entries (type and offset,
// the offset from the SuperBlob's start), then the blobs, which open with a magic and a length.
ghost use Rattle.layout.specs.SuperBlob.{HeadRead, IndexRead, BlobRead};

// The head. The length is that of the whole SuperBlob.
#[derive(Clone, Copy)]
pub struct SuperBlob {
    pub magic: usize,
    pub length: usize,
    pub count: usize,
}

impl SuperBlob {
    // CSMAGIC_EMBEDDED_SIGNATURE
    pub const MAGIC: usize = 0xFADE0CC0;

    // Bytes of the head; the index starts behind it.
    pub const HEAD: usize = 12;

    // Bytes of an index entry.
    pub const ENTRY: usize = 8;

    pub fn read(sig: &[u8]) -> SuperBlob
        ensures { HeadRead sig.now result }
    {
        SuperBlob {
            magic: endian::be32(sig, 0, 0),
            length: endian::be32(sig, 0, 4),
            count: endian::be32(sig, 0, 8),
        }
    }
}

// An entry of the index: the slot type of a blob (`type` in Apple's header), and where the blob starts.
#[derive(Clone, Copy)]
pub struct BlobIndex {
    pub slot_type: usize,
    pub offset: usize,
}

impl BlobIndex {
    // The entry at position i.
    pub fn read(sig: &[u8], i: usize) -> BlobIndex
        ensures { IndexRead sig.now i result }
    {
        if sig.len() / SuperBlob::ENTRY < i {
            return BlobIndex {
                slot_type: 0,
                offset: 0,
            };
        }
        let entry = SuperBlob::ENTRY * i;
        BlobIndex {
            slot_type: endian::be32(sig, SuperBlob::HEAD, entry),
            offset: endian::be32(sig, SuperBlob::HEAD + 4, entry),
        }
    }
}

// The head of a blob. The length includes the head.
#[derive(Clone, Copy)]
pub struct Blob {
    pub magic: usize,
    pub length: usize,
}

impl Blob {
    pub const HEAD: usize = 8;

    // The magics of the blobs beside the directory, by Apple's names without CSMAGIC and EMBEDDED.
    pub const REQUIREMENTS: usize = 0xFADE0C01;

    pub const ENTITLEMENTS: usize = 0xFADE7171;

    pub const DER_ENTITLEMENTS: usize = 0xFADE7172;

    pub const LAUNCH_CONSTRAINT: usize = 0xFADE8181;

    pub const BLOBWRAPPER: usize = 0xFADE0B01;

    // The blob that starts at `at`.
    pub fn read(sig: &[u8], at: usize) -> Blob
        ensures { BlobRead sig.now at result }
    {
        Blob {
            magic: endian::be32(sig, at, 0),
            length: endian::be32(sig, at, 4),
        }
    }
}
