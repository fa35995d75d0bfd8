//! Builds the text in which the program prints the words of a draw.
ghost use Rattle.std.specs.Prelude.{◌≡◌, ◌<◌, IfOk, OnErr, length, string_bytes};
ghost use Rattle.std.specs.List.{flat_map};
ghost use Rattle.office_cli.specs.WordLines.{words_of_seed, word_line, words_text};

use crate::seeds::Seed;
use draw_order::words_from;
use rand_chacha::ChaCha20Rng;
use rand_core::SeedableRng;
use room_types::{OutOfMemory, Word};
use std::alloc::Global;

/// Returns the first `count` words of the generator with this seed, one on each line. Fails if an allocation fails.
/// With a `count` of 0 it always succeeds.
pub fn words_text(alloc: Global, seed: Seed, count: usize) -> Result<String, OutOfMemory>
    ensures text { IfOk result (λ text. string_bytes text ≡ words_text seed count) }
    ensures memory { OnErr result (0 < count) }
{
    let words = words_of_seed(alloc, seed, count)?;
    lines_of(alloc, words.as_slice())
}

fn words_of_seed(alloc: Global, seed: Seed, count: usize) -> Result<Vec<Word>, OutOfMemory>
    ensures words { IfOk result (λ words. words.items ≡ words_of_seed seed count) }
    ensures memory { OnErr result (0 < count) }
{
    let mut generator = ChaCha20Rng::from_seed(seed);
    words_from(alloc, &mut generator, count)
}

// Returns the words, one on each line.
fn lines_of(alloc: Global, words: &[Word]) -> Result<String, OutOfMemory>
    ensures text { IfOk result (λ text. string_bytes text ≡ flat_map word_line words.now) }
    ensures memory { OnErr result (0 < length words.now) }
{
    let mut text = String::new(alloc);
    for word in words {
        writeln!(text, "{word}")?;
    }
    Ok(text)
}
