//! Random words for a draw.
ghost use Rattle.std.specs.Prelude.{◌≡◌, IfOk, OnOk, OnErr, ◌<◌};
ghost use Rattle.rand_core.specs.Stream.{next_u64};
ghost use Rattle.draw_order.specs.Words.{next_words, stream_after};

use rand_core::Rng;
use room_types::{OutOfMemory, Word};
use std::alloc::Global;

/// Draws `count` words: the next results of the generator's `next_u64`, in order. If the allocation fails, the call
/// draws no word and leaves the generator unchanged. Does not allocate for 0 words.
pub fn words_from<R: Rng>(
    alloc: Global,
    generator: &mut R,
    count: usize,
) -> Result<Vec<Word>, OutOfMemory>
    ensures words { IfOk result (λ words. words.items ≡ next_words count (R.stream generator.old)) }
    ensures after { OnOk result
        (R.stream generator.new ≡ stream_after count (R.stream generator.old)) }
    ensures unchanged { OnErr result (R.stream generator.new ≡ R.stream generator.old) }
    ensures memory { OnErr result (0 < count) }
{
    // Allocates all memory first, so that no word is drawn if the allocation fails.
    let mut words = Vec::with_capacity(alloc, count)?;
    for _place in 0..count {
        words.push(next_word(generator))?;
    }
    Ok(words)
}

fn next_word<R: Rng>(generator: &mut R) -> Word
    ensures { (result, R.stream generator.new) ≡ next_u64 (R.stream generator.old) }
{
    Word::new(generator.next_u64())
}
