// The layouts of a signature, of a trust cache and of a Mach-O file: a structure for each, its constants, and a constructor that reads it.
//
// The names are Apple's where it has one (xnu, cs_blobs.h and mach-o/loader.h). Constructors take any bytes: what lies past the end reads
// as 0, and it is for the caller to test lengths. A field's offset stands once in the code, in the constructor.
#![tactic(auto)]

pub mod cache;
pub mod directory;
pub mod kinds;
pub mod macho;
pub mod parts;
pub mod superblob;
