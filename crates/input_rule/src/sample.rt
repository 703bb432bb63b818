//! A sample in a word.

ghost use Rattle.std.specs.Prelude.{◌≡◌, ◌<◌, ◌^◌};
ghost use Rattle.input_rule.specs.Words.{sample_of};

/// The least number of 32 bits, two's complement, is told by the word 0.
const SAMPLE_OFFSET: i64 = 1 << 31;

/// The word that spells a sample.
pub fn word_of(sample: i32) -> u64
    ensures spells { sample_of result ≡ sample }
    ensures small { result < 2 ^ 32 }
{
    (i64::from(sample) + SAMPLE_OFFSET) as u64
}

/// The sample that a word spells.
pub fn sample_of(word: u64) -> i32
    requires { word < 2 ^ 32 }
    ensures { result ≡ sample_of word }
{
    (word as i64 - SAMPLE_OFFSET) as i32
}
