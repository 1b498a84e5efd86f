// Σ and σ of FIPS 180-4, section 4.1.2, by shifts alone (`big_sigma_shifts`, `small_sigma_shifts` of `sha`). Vector registers have no rotation,
// and with one here the compiler keeps the four messages apart.
use sha32::Sigmas;

pub struct Shifts;

impl Sigmas for Shifts {
    fn big_sigma0(x: u32) -> u32 {
        (((x >> 2) ^ (x << 19)) ^ ((x >> 13) ^ (x << 10))) ^ ((x >> 22) ^ (x << 30))
    }

    fn big_sigma1(x: u32) -> u32 {
        (((x >> 6) ^ (x << 21)) ^ ((x >> 11) ^ (x << 7))) ^ ((x >> 25) ^ (x << 26))
    }

    fn small_sigma0(x: u32) -> u32 {
        (((x >> 7) ^ (x << 14)) ^ ((x >> 18) ^ (x << 25))) ^ (x >> 3)
    }

    fn small_sigma1(x: u32) -> u32 {
        (((x >> 17) ^ (x << 13)) ^ ((x >> 19) ^ (x << 15))) ^ (x >> 10)
    }
}
