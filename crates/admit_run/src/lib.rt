// Document 01's small program: reads a signature, an image and a trust cache from the files that its arguments name, and prints the number
// and the place of a whole check, or what is wrong with a file. `line_of` decides what it says; reading (`files`) and printing stand around
// it. Its exit status is 0 whatever it says; where printing fails, `run` returns the error.
#![tactic(auto)]

mod files;
mod text;

ghost use Rattle.std.specs.Prelude.{◌≡◌, ◌<◌, ◌≤◌, length, take, IfSome, IfOk};
ghost use Rattle.std.specs.Option.{ForSome, option_copied, option_map};
ghost use Rattle.admit_run.specs.Small.{most_signature_file, most_image_file, most_cache_file, judged_file, outcome, small_line, marks_wanted, small_verdict, SaidIn, Said};

use admission::{Beside, Verdict};
use files::load;
use layout::directory::CodeDirectory;
use slots::SideFiles;
use std::env::FillError;
use std::io;
use std::rt::{Env, Files};
use text::put_line;
use trustcache::Launch;

// The most bytes of each file.
const SIGNATURE_MOST: usize = 16384;

const IMAGE_MOST: usize = 32768;

const CACHE_MOST: usize = 16384;

// Room for one byte more than each file may have, so that one that is too long shows, and for the marks: slots lie inside the signature, so
// that it has no more of them than bytes.
const SIGNATURE_ROOM: usize = SIGNATURE_MOST + 1;

const IMAGE_ROOM: usize = IMAGE_MOST + 1;

const CACHE_ROOM: usize = CACHE_MOST + 1;

const MARKS_ROOM: usize = SIGNATURE_MOST;

// Room for a file's name, and for a line.
const NAME_ROOM: usize = 4096;

const LINE_ROOM: usize = 42;

// What is wrong with a file: it is not there, or it is too long.
#[derive(Clone, Copy, Debug, PartialEq, Eq)]
pub enum FileError {
    NoFile,
    TooLong,
}

// The bytes of a file that is there and has at most so many.
#[tactic(auto, unfolding(crate::specs::Small::file_of))]
fn within(file: Option<&[u8]>, most: usize) -> Result<&[u8], FileError>
    ensures upper_bound { IfOk result (λ bytes. length bytes.now ≤ most) }
    ensures outcome { outcome result ≡ judged_file most (option_copied file.entry) }
{
    match file {
        None => Err(FileError::NoFile),
        Some(bytes) if most < bytes.len() => Err(FileError::TooLong),
        Some(bytes) => Ok(bytes),
    }
}

// What is said of three files, each with its bytes where it was there: the verdict, or what is wrong with the first that is missing or too
// long.
fn line_of(
    signature: Option<&[u8]>,
    image: Option<&[u8]>,
    cache: Option<&[u8]>,
    marks: &mut [u8],
) -> Result<Verdict, FileError>
    requires { most_signature_file ≤ length marks.old }
    ensures { result ≡ small_line (judged_file most_signature_file (option_copied signature.entry)) (judged_file most_image_file (option_copied image.entry)) (judged_file most_cache_file (option_copied cache.entry)) }
{
    let signature_bytes = within(signature, SIGNATURE_MOST)?;
    let image_bytes = within(image, IMAGE_MOST)?;
    let cache_bytes = within(cache, CACHE_MOST)?;
    Ok(admit(signature_bytes, image_bytes, cache_bytes, marks))
}

// The whole check of three files.
fn admit<'a>(signature: &'a [u8], image: &[u8], cache: &'a [u8], marks: &mut [u8]) -> Verdict
    requires { length signature.now ≤ length marks.old }
    ensures { result ≡ small_verdict signature.now image.now cache.now }
{
    let n = marks_wanted(signature);
    let launch = Launch {
        on_authorized_volume: false,
        on_system_volume: false,
        launch_type: 0,
        validation_category: 0,
        parent_is_init: false,
    };
    let sides = SideFiles {
        info: None,
        resources: None,
    };
    let lent = Beside {
        signature,
        cache,
        sides,
        launch,
    };
    admission::check(image, &mut marks[0..n], lent)
}

// How many marks test 20 wants; 0 where a test before it refuses, as its definition has it.
fn marks_wanted(signature: &[u8]) -> usize
    ensures { (result ≡ marks_wanted signature.now) × (result ≤ length signature.now) }
{
    let Ok(()) = directory::tested(signature, 0) else {
        return 0;
    };
    CodeDirectory::read(superblob::blob_of(signature, CodeDirectory::TYPE)).code_slots
}

// The bytes at the start of a buffer that a file was read into, where it was there.
fn read_part(buffer: &[u8], read: Option<usize>) -> Option<&[u8]>
    requires { ForSome read (λ n. n ≤ length buffer.now) }
    ensures { option_copied result ≡ option_map (λ n. take n buffer.now) read }
{
    Some(&buffer[..read?])
}

// What is said of the files of three names, which are read into the buffers. Each buffer is a parameter of its own, since `SaidIn` speaks
// of each.
fn read_and_say(
    files: &impl Files,
    signature_name: &[u8],
    signature: &mut [u8],
    image_name: &[u8],
    image: &mut [u8],
    cache_name: &[u8],
    cache: &mut [u8],
    marks: &mut [u8],
) -> Result<Verdict, FileError>
    requires files_have_room { (most_signature_file < length signature.old) × (most_image_file < length image.old) × (most_cache_file < length cache.old) }
    requires marks_have_room { most_signature_file ≤ length marks.old }
    ensures { SaidIn signature.new image.new cache.new result }
{
    let first = load(files, signature_name, signature);
    let second = load(files, image_name, image);
    let third = load(files, cache_name, cache);
    line_of(
        read_part(signature, first),
        read_part(image, second),
        read_part(cache, third),
        marks,
    )
}

// What the program says of the files of three names.
pub fn answer(
    rt: &HostRuntime,
    signature_name: &[u8],
    image_name: &[u8],
    cache_name: &[u8],
) -> Result<Verdict, FileError>
    ensures { Said result }
{
    let mut signature = [0u8; SIGNATURE_ROOM];
    let mut image = [0u8; IMAGE_ROOM];
    let mut cache = [0u8; CACHE_ROOM];
    let mut marks = [0u8; MARKS_ROOM];
    read_and_say(
        rt,
        signature_name,
        &mut signature,
        image_name,
        &mut image,
        cache_name,
        &mut cache,
        &mut marks,
    )
}

// Writes a line.
pub fn print(rt: &impl Print, line: Result<Verdict, FileError>) -> io::Result<()> {
    let mut text = [0u8; LINE_ROOM];
    let n = put_line(line, &mut text);
    rt.write_all(&text[..n])
}

// Argument i, where it is given; where it has no room it has no bytes, which name no file.
fn argument<'a>(env: &impl Env, i: usize, out: &'a mut [u8]) -> Option<&'a [u8]>
    ensures { IfSome result (λ word. length word.now ≤ length out.old) }
{
    match env.arg(i, out) {
        Ok(n) => Some(&out[..n]),
        Err(FillError::TooLong) => Some(&[]),
        Err(FillError::NotPresent) => None,
    }
}

// The program.
pub fn run(rt: &HostRuntime) -> io::Result<()> {
    let mut signature = [0u8; NAME_ROOM];
    let mut image = [0u8; NAME_ROOM];
    let mut cache = [0u8; NAME_ROOM];
    let a = argument(rt, 1, &mut signature);
    let b = argument(rt, 2, &mut image);
    let c = argument(rt, 3, &mut cache);
    let more = argument(rt, 4, &mut []);
    match (a, b, c, more) {
        (Some(a), Some(b), Some(c), None) => print(rt, answer(rt, a, b, c)),
        _ => rt.write_all(b"usage: admit SIGNATURE IMAGE CACHE\n"),
    }
}
