//! A test of the random words for a seed.
use office_cli::seeds::parse_seed;
use office_cli::word_lines::words_text;
use std::test::Fail;

const ZEROS: &str = "0000000000000000000000000000000000000000000000000000000000000000";

// The first two words of the key stream of ChaCha20 for a key and a nonce of zeros (RFC 8439, section 2.3).
const TWO_WORDS: &str = "903df1a0ade0b876\n28bd8653e56a5d40\n";

#[test]
fn computes_the_words_of_a_seed(rt: HostRuntime) -> Result<(), Fail> {
    let seed = parse_seed(ZEROS).expect(&rt, "a seed");
    assert!(rt; words_text(rt.alloc(), seed, 2)?.as_str() == TWO_WORDS);
    Ok(())
}
