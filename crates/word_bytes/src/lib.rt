// Words of 32 bits as bytes, four each, lowest byte first, and back.

#![tactic(auto)]

ghost use Rattle.std.specs.Prelude.{◌≡◌, ◌*◌, ◌/◌, ◌≤◌, length};
ghost use Rattle.words.specs.Words.{overwrite};
ghost use Rattle.word_bytes.specs.Bytes.{bytes_of, words_of};

// The bytes of the words, at the front of the buffer.
pub fn write_bytes(words: &[u32], bytes: &mut [u8])
    requires { length words.now * 4 ≤ length bytes.old }
    ensures { bytes.new ≡ overwrite 0 (bytes_of words.now) bytes.old }
{
    for (k, word) in words.iter().enumerate() {
        bytes[4 * k..4 * k + 4].copy_from_slice(&word.to_le_bytes());
    }
}

// The words of the bytes, at the front of the buffer.
pub fn read_words(bytes: &[u8], words: &mut [u32])
    requires { length bytes.now / 4 ≤ length words.old }
    ensures { words.new ≡ overwrite 0 (words_of bytes.now) words.old }
{
    let (fours, _) = bytes.as_chunks::<4>();
    for (k, four) in fours.iter().enumerate() {
        words[k] = u32::from_le_bytes(*four);
    }
}
