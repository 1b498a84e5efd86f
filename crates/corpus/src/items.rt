// Items. An item is the length of its bytes, as a big-endian number of 4 bytes, and then segments until that many bytes are made. A
// segment is a tag byte and a count n of 4 bytes, at least 1, and by its tag: 0, the n bytes that follow; 1, n times the byte that
// follows; 2, the n bytes that the buffer holds at this place already; 3, n bytes of numbered records: the 24 bytes that follow, again
// and again, but that each record has its number, from 0, in its first four bytes, the most significant first.
ghost use Rattle.std.specs.Prelude.{◌≡◌, ◌<◌, ◌≤◌, length, IfSome};

// Bytes of a numbered record.
const RECORD: usize = 24;

// How many bytes an item or a segment made at the start of a buffer, and the file behind it.
#[derive(Clone, Copy)]
pub struct Expanded<'a> {
    pub length: usize,
    pub rest: &'a [u8],
}

// The record of a number: the template, but for its first four bytes.
fn numbered(template: &[u8; RECORD], number: usize) -> [u8; RECORD] {
    let mut record = *template;
    let low = (number % 4294967296) as u32;
    record[..4].copy_from_slice(&low.to_be_bytes());
    record
}

// Fills a buffer with numbered records, of which the last may be cut. They are copied by a loop, since the search does not find that no chunk
// is longer than a record.
fn number(template: &[u8; RECORD], out: &mut [u8]) {
    for (number, record) in out.chunks_mut(RECORD).enumerate() {
        let whole = numbered(template, number);
        for (byte, value) in record.iter_mut().zip(whole) {
            *byte = value;
        }
    }
}

// Makes the bytes of a segment, as many as the buffer has, and answers the file behind it; nothing where it is not as described above.
fn make_segment<'a>(tag: u8, file: &'a [u8], out: &mut [u8]) -> Option<&'a [u8]>
    ensures { IfSome result (λ rest. length rest.now ≤ length file.now) }
{
    match tag {
        0 => {
            let (literal, rest) = file.split_at_checked(out.len())?;
            out.copy_from_slice(literal);
            Some(rest)
        }
        1 => {
            let (byte, rest) = file.split_first()?;
            out.fill(*byte);
            Some(rest)
        }
        2 => Some(file),
        3 => {
            let (template, rest) = file.split_first_chunk::<RECORD>()?;
            number(template, out);
            Some(rest)
        }
        _ => None,
    }
}

// Expands the segment at the start of a file into a buffer; nothing where it is not as described above.
fn expand_segment<'a>(file: &'a [u8], out: &mut [u8]) -> Option<Expanded<'a>>
    ensures { IfSome result (λ segment. (0 < segment.length) × (segment.length ≤ length out.new) × (length segment.rest.now ≤ length file.now)) }
{
    let (head, rest) = file.split_first_chunk::<5>()?;
    let [tag, a, b, c, d] = *head;
    let length = u32::from_be_bytes([a, b, c, d]) as usize;
    if length == 0 {
        return None;
    }
    let rest = make_segment(tag, rest, out.get_mut(..length)?)?;
    Some(Expanded { length, rest })
}

// Expands the item at the start of a file into a buffer; nothing where it is not as described above.
pub fn expand<'a>(file: &'a [u8], out: &mut [u8]) -> Option<Expanded<'a>>
    ensures { IfSome result (λ item. (item.length ≤ length out.new) × (length item.rest.now < length file.now)) }
{
    let (head, mut rest) = file.split_first_chunk::<4>()?;
    let length = u32::from_be_bytes(*head) as usize;
    let item = out.get_mut(..length)?;
    let mut made = 0;
    // Each segment says how many bytes it makes.
    while made < length {
        let segment = expand_segment(rest, &mut item[made..])?;
        made += segment.length;
        rest = segment.rest;
    }
    Some(Expanded { length, rest })
}
