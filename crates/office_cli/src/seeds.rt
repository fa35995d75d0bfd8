//! The seed of a generator, in hexadecimal digits.
ghost use Rattle.std.specs.Prelude.{◌≡◌};
ghost use Rattle.office_cli.specs.Seeds.{parse_seed};

use hex::FromHex;

/// The number of bytes of the seed from which the words of a draw are generated.
pub const SEED_BYTES: usize = 32;

/// A seed from which the words of a draw are generated.
pub type Seed = [u8; SEED_BYTES];

/// Parses a seed, which is exactly 64 hexadecimal digits of either case. Each pair of digits gives one byte, in
/// order. Returns `None` for any other text.
pub fn parse_seed(text: &str) -> Option<Seed>
    ensures { result ≡ parse_seed text.now }
{
    match <Seed as FromHex>::from_hex(text) {
        Ok(seed) => Some(seed),
        Err(_) => None,
    }
}
