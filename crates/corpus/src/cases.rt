// Cases. A case is its name (how many bytes it has, in 1 byte, and the bytes), its operation (1 byte), how many fields follow (1 byte),
// and each field: its number (1 byte, below 16), its start in the arena (4 bytes, big-endian), and an item. The item is expanded into
// the arena at that start, and the field is the part of the arena that it fills. A field that a case does not name stays as the cases
// before it left it, and fields may share bytes.
ghost use Rattle.std.specs.Prelude.{◌≡◌, ◌<◌, ◌≤◌, length, replicate, IfSome};

use crate::items::expand;

// How many fields there are.
pub const FIELDS: usize = 16;

// A case, with its fields in the arena: its name, its operation, whether it names the field that was asked about, and the file behind it.
#[derive(Clone, Copy)]
pub struct Case<'a> {
    pub name: &'a [u8],
    pub operation: u8,
    pub named: bool,
    pub rest: &'a [u8],
}

// The part of the arena that a field fills.
#[derive(Clone, Copy)]
pub struct Place {
    pub start: usize,
    pub length: usize,
}

// A field that was taken: its number, and the file behind it.
#[derive(Clone, Copy)]
struct Field<'a> {
    number: usize,
    rest: &'a [u8],
}

// The fields that were taken: whether the one that was asked about is among them, and the file behind them.
#[derive(Clone, Copy)]
struct Taken<'a> {
    named: bool,
    rest: &'a [u8],
}

// The arena, and where each field lies in it. Any places may be given: a field that does not lie inside has no bytes.
#[derive(Drop)]
pub struct Arena<'a> {
    pub bytes: &'a mut [u8],
    pub places: [Place; FIELDS],
}

impl<'a> Arena<'a> {
    // An arena whose fields have no bytes yet.
    pub fn new(bytes: &'a mut [u8]) -> Self
        ensures bytes { result.bytes.now ≡ bytes.old }
        ensures places { result.places ≡ replicate FIELDS (record { start = 0; length = 0 }) }
    {
        let nowhere = Place {
            start: 0,
            length: 0,
        };
        Arena {
            bytes,
            places: [nowhere; FIELDS],
        }
    }

    // A field's part of the arena; nothing where it does not lie inside.
    fn find(&self, field: usize) -> Option<&[u8]>
        ensures { IfSome result (λ part. length part.now ≤ length self.now.bytes.now) }
    {
        let place = *self.places.get(field)?;
        self.bytes.get(place.start..)?.get(..place.length)
    }

    // A field's bytes: none where no case named it.
    pub fn part(&self, field: usize) -> &[u8]
        ensures { length result.now ≤ length self.now.bytes.now }
    {
        self.find(field).unwrap_or(&[])
    }

    // Takes the field at the start of a file. One whose item is broken has no bytes.
    fn take_field<'f>(&mut self, file: &'f [u8]) -> Option<Field<'f>>
        ensures rest { IfSome result (λ field. length field.rest.now < length file.now) }
        ensures kept { length self.new.bytes.now ≡ length self.old.bytes.now }
    {
        let (head, rest) = file.split_first_chunk::<5>()?;
        let [number, a, b, c, d] = *head;
        let number = number as usize;
        let start = u32::from_be_bytes([a, b, c, d]) as usize;
        if FIELDS <= number || self.bytes.len() < start {
            return None;
        }
        let item = expand(rest, &mut self.bytes[start..]);
        self.places[number] = Place {
            start,
            length: item.map_or(0, |item| item.length),
        };
        Some(Field {
            number,
            rest: item?.rest,
        })
    }

    // Takes `count` fields from the start of a file on.
    fn take_fields<'f>(&mut self, file: &'f [u8], count: u8, asked: usize) -> Option<Taken<'f>>
        ensures rest { IfSome result (λ taken. length taken.rest.now ≤ length file.now) }
        ensures kept { length self.new.bytes.now ≡ length self.old.bytes.now }
    {
        let mut named = false;
        let mut rest = file;
        for _ in 0..count {
            let field = self.take_field(rest)?;
            named |= field.number == asked;
            rest = field.rest;
        }
        Some(Taken { named, rest })
    }

    // Takes the case at the start of a file, and says whether it names the field `asked`; nothing where it is not as described above.
    pub fn take_case<'f>(&mut self, file: &'f [u8], asked: usize) -> Option<Case<'f>>
        ensures case { IfSome result (λ case. (length case.name.now ≤ length file.now) × (length case.rest.now < length file.now)) }
        ensures kept { length self.new.bytes.now ≡ length self.old.bytes.now }
    {
        let (size, rest) = file.split_first()?;
        let (name, rest) = rest.split_at_checked(*size as usize)?;
        let (head, rest) = rest.split_first_chunk::<2>()?;
        let [operation, count] = *head;
        let taken = self.take_fields(rest, count, asked)?;
        Some(Case {
            name,
            operation,
            named: taken.named,
            rest: taken.rest,
        })
    }
}
