// Encoding of small values in the words of a lent `&[u64]`, one word a field. Decoding is total.
#![tactic(auto)]

ghost use Rattle.std.specs.Prelude.{◌≡◌, ◌<◌};
ghost use Rattle.words.specs.Words.{read_flag, flag_word, read_option_u32, option_u32_word, read_option_u64, option_u64_words, read_signed, signed_word, read_option_i32, option_i32_word};

pub mod slices; // slices.rt: parts of a lent slice, read, copied and filled

// 2^32: how many values 32 bits have.
const VALUES: u64 = 4294967296;

// The two words of an optional `u64` in C: every value of the second is taken.
#[derive(Clone, Copy)]
pub struct OptionWords {
    pub present: u64,
    pub value: u64,
}

pub fn flag_word(b: bool) -> u64
    ensures { (read_flag result ≡ b) × (result ≡ flag_word b) }
{
    u64::from(b)
}

pub fn to_flag(w: u64) -> bool
    ensures { result ≡ read_flag w }
{
    w != 0
}

pub fn option_u32_word(o: Option<u32>) -> u64
    ensures { (read_option_u32 result ≡ o) × (result ≡ option_u32_word o) }
{
    o.map_or(0, |v| u64::from(v) + 1)
}

pub fn to_option_u32(w: u64) -> Option<u32>
    ensures { result ≡ read_option_u32 w }
{
    w.checked_sub(1).map(|v| (v % VALUES) as u32)
}

pub fn option_u64_words(o: Option<u64>) -> OptionWords
    ensures { (read_option_u64 result.present result.value ≡ o) × (result ≡ option_u64_words o) }
{
    OptionWords {
        present: u64::from(o.is_some()),
        value: o.unwrap_or(0),
    }
}

pub fn to_option_u64(present: u64, value: u64) -> Option<u64>
    ensures { result ≡ read_option_u64 present value }
{
    (present != 0).then_some(value)
}

fn signed_word(v: i32) -> u64
    ensures { (read_signed result ≡ v) × (result < 4294967296) × (result ≡ signed_word v) }
{
    u64::from(v.cast_unsigned())
}

fn to_signed(w: u64) -> i32
    ensures { result ≡ read_signed w }
{
    ((w % VALUES) as u32).cast_signed()
}

pub fn option_i32_word(o: Option<i32>) -> u64
    ensures { (read_option_i32 result ≡ o) × (result ≡ option_i32_word o) }
{
    o.map_or(0, |v| signed_word(v) + 1)
}

pub fn to_option_i32(w: u64) -> Option<i32>
    ensures { result ≡ read_option_i32 w }
{
    w.checked_sub(1).map(to_signed)
}
