//! The stream of residuals: numbers of some bits each, one behind the other, in words of 64 bits.

ghost use Rattle.std.specs.Prelude.{◌≡◌, ℕ, ◌+◌, ◌-◌, ◌*◌, ◌/◌, ◌%◌, ◌^◌, ◌<◌, ◌≤◌, length, take, All, slice_index};
ghost use Rattle.column_pack.specs.Digits.{number, digits};

/// The words of a stream: at most 128, and two more behind them so that a number may be read from two at a time.
pub const WORDS: usize = 130;

/// Puts residuals of some bits each one behind the other into words, and says how many words they fill or begin.
pub fn write_words(residuals: &[u64], width: u32, words: &mut [u64; 130]) -> usize
    requires few { length residuals.now ≤ 128 }
    requires width { width ≤ 64 }
    requires below { All (λ r. r < 2 ^ width) residuals.now }
    ensures number { number (2 ^ 64) (take result words.new) ≡ number (2 ^ width) residuals.now }
    ensures enough { length residuals.now * width ≤ 64 * result }
    ensures few { result ≤ 129 }
{
    let mut pending: u128 = 0;
    let mut filled: u32 = 0;
    let mut count = 0;
    for residual in residuals {
        pending += (*residual as u128) << filled;
        filled += width;
        if 64 <= filled {
            words[count] = (pending % (1 << 64)) as u64;
            count += 1;
            pending >>= 64;
            filled -= 64;
        }
    }
    words[count] = pending as u64;
    count + 1
}

/// The words of some bytes, low bytes first.
pub fn read_words(bytes: &[u8], words: &mut [u64; 130])
    requires few { length bytes.now ≤ 1024 }
    requires zero { (k : ℕ) → slice_index words.old k ≡ 0 }
    ensures { number (2 ^ 64) words.new ≡ number 256 bytes.now }
{
    let mut rest = bytes;
    let mut count = 0;
    while let Some((word, after)) = rest.split_first_chunk::<8>() {
        words[count] = u64::from_le_bytes(*word);
        count += 1;
        rest = after;
    }
    words[count] = last_word(rest);
}

/// The word that fewer than eight bytes begin.
pub fn last_word(bytes: &[u8]) -> u64
    requires { length bytes.now < 8 }
    ensures { result ≡ number 256 bytes.now }
{
    let mut word = 0;
    for i in (0..bytes.len()).rev() {
        word = word * 256 + bytes[i] as u64;
    }
    word
}

/// The number of some bits that begins at a bit of a stream.
fn number_at(words: &[u64], at: usize, width: u32) -> u64
    requires words { length words.now ≡ 130 }
    requires at { at ≤ 8128 }
    requires width { width ≤ 64 }
    ensures { result ≡ number (2 ^ 64) words.now / 2 ^ at % 2 ^ width }
{
    let pair = words[at / 64] as u128 + ((words[at / 64 + 1] as u128) << 64);
    ((pair >> (at % 64)) % (1u128 << width)) as u64
}

/// Reads residuals of some bits each.
pub fn read_residuals(words: &[u64], count: usize, width: u32, residuals: &mut [u64; 128])
    requires words { length words.now ≡ 130 }
    requires count { count ≤ 128 }
    requires width { width ≤ 64 }
    ensures { take count residuals.new ≡ digits (2 ^ width) count (number (2 ^ 64) words.now) }
{
    for i in 0..count {
        residuals[i] = number_at(words, i * width as usize, width);
    }
}
