// What a program writes to standard output no contract can say; it is held to a stored output.
use std::io;

// Writes `NUMBER PLACE`.
pub fn print_answer(rt: &impl Print, number: u32, place: usize) -> io::Result<()> {
    print!(rt; "{number} {place}")
}

// Writes bytes in hexadecimal, eight in one number: each `print!` fills a buffer of its own.
pub fn print_bytes(rt: &impl Print, bytes: &[u8]) -> io::Result<()> {
    for part in bytes.chunks(8) {
        let mut number: u64 = 0;
        for byte in part {
            number = number << 8 | *byte as u64;
        }
        let width = 2 * part.len();
        print!(rt; "{number:0width$x}")?;
    }
    Ok(())
}
