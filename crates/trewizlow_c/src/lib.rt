// The C interface: an export for each function of the library trewizlow, with the same clauses. include/trewizlow.h declares them, but for
// trewizlow_file_read and trewizlow_file_check.
#![tactic(auto)]

ghost use Rattle.std.specs.Prelude.{◌≡◌};
ghost use Rattle.layout.specs.CodeDirectory.{directory_type};
ghost use Rattle.superblob.specs.Rows.{start_of};
ghost use Rattle.directory.specs.Rows.{directory};
ghost use Rattle.admission.specs.Input.{lent};
ghost use Rattle.admission.specs.Check.{Checked};
ghost use Rattle.admission.specs.File.{lent_file, FileChecked};
ghost use Rattle.admission.specs.Recheck.{recheck_of, Rechecked};
ghost use Rattle.trewizlow.specs.Interface.{file_signature, blob_part, fields_of, no_fields, directory_fields, directory_hash};

use admission::Verdict;
use refusals::Answer;
use trewizlow::{BlobPart, DirectoryFields, DirectoryHash, FileSignature};
use trustcache::Launch;

// The whole check.
#[unsafe(no_mangle)]
pub extern "C" fn trewizlow_check(
    signature: &[u8],
    image: &[u8],
    marks: &mut [u8],
    cache: &[u8],
    info_there: bool,
    info: &[u8],
    resources_there: bool,
    resources: &[u8],
    launch: Launch,
) -> Verdict
    ensures { Checked (lent signature.now image.now cache.now info_there info.now resources_there resources.now launch) marks.old result marks.new }
{
    trewizlow::trewizlow_check(
        signature,
        image,
        marks,
        cache,
        info_there,
        info,
        resources_there,
        resources,
        launch,
    )
}

#[unsafe(no_mangle)]
pub extern "C" fn trewizlow_file_read(file: &[u8]) -> FileSignature
    ensures { result ≡ file_signature file.now }
{
    trewizlow::trewizlow_file_read(file)
}

// The whole check of a Mach-O file.
#[unsafe(no_mangle)]
pub extern "C" fn trewizlow_file_check(
    file: &[u8],
    marks: &mut [u8],
    cache: &[u8],
    info_there: bool,
    info: &[u8],
    resources_there: bool,
    resources: &[u8],
    launch: Launch,
) -> Verdict
    ensures { FileChecked (lent_file file.now cache.now info_there info.now resources_there resources.now launch) marks.old result marks.new }
{
    trewizlow::trewizlow_file_check(
        file,
        marks,
        cache,
        info_there,
        info,
        resources_there,
        resources,
        launch,
    )
}

// The recheck of a range, lent the contents of the pages that it meets.
#[unsafe(no_mangle)]
pub extern "C" fn trewizlow_recheck(
    signature: &[u8],
    start: u64,
    size: u64,
    contents: &[u8],
    marks: &mut [u8],
) -> Answer
    ensures { Rechecked signature.now (recheck_of start size contents.now) marks.old result marks.new }
{
    trewizlow::trewizlow_recheck(signature, start, size, contents, marks)
}

#[unsafe(no_mangle)]
pub extern "C" fn trewizlow_find(signature: &[u8], slot_type: u32) -> BlobPart
    ensures { result ≡ blob_part signature.now slot_type }
{
    trewizlow::trewizlow_find(signature, slot_type)
}

#[unsafe(no_mangle)]
pub extern "C" fn trewizlow_read(signature: &[u8]) -> DirectoryFields
    ensures { result ≡ directory_fields signature.now }
{
    trewizlow::trewizlow_read(signature)
}

#[unsafe(no_mangle)]
pub extern "C" fn trewizlow_cdhash(signature: &[u8]) -> DirectoryHash
    ensures { result ≡ directory_hash signature.now }
{
    trewizlow::trewizlow_cdhash(signature)
}
