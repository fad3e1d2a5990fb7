// Words from bytes: four bytes each, most significant first.
ghost use Rattle.std.specs.Prelude.{◌≡◌, ◌+◌, ◌<◌, ◌≤◌, length, take, drop};
ghost use Rattle.paths.specs.Copying.{Appends};
ghost use Rattle.input.specs.Words.{word_from, words_of};

// The word in four bytes, most significant first.
pub fn word_from(bytes: &[u8], at: usize) -> u32
    requires { at + 3 < length bytes.now }
    ensures { result ≡ word_from bytes.now at }
{
    u32::from_be_bytes([bytes[at], bytes[at + 1], bytes[at + 2], bytes[at + 3]])
}

// Takes the whole words that the bytes from an offset on begin with, as many as there is room for, and says how many.
pub fn take_words(bytes: &[u8], from: usize, words: &mut [u32]) -> usize
    requires { from ≤ length bytes.now }
    ensures { Appends (take (length words.old) (words_of (drop from bytes.now))) words.old 0 words.new result }
{
    let count = words.len().min((bytes.len() - from) / 4);
    for k in 0..count {
        words[k] = word_from(bytes, from + 4 * k);
    }
    count
}
