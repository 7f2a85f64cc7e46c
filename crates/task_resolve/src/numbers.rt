//! Numbers among the words.

ghost use Rattle.std.specs.Prelude.{◌≡◌, IsTrue, IsUtf8};
ghost use Rattle.std.specs.List.{list_all};
ghost use Rattle.std.specs.Char.{is_ascii_digit};
ghost use Rattle.task_resolve.specs.Numbers.{is_decimal, written, number_of, workers_of};

fn all_digits(word: &[u8]) -> bool
    ensures { result ≡ list_all is_ascii_digit word.now }
{
    word.iter().all(|byte| byte.is_ascii_digit())
}

fn is_decimal(word: &[u8]) -> bool
    ensures { result ≡ is_decimal word.now }
{
    match word.first() {
        None => false,
        Some(first) => all_digits(word) && (word.len() == 1 || *first != b'0'),
    }
}

fn written(digits: &[u8]) -> Option<u32>
    requires decimal { IsTrue (is_decimal digits.now) }
    requires text { IsUtf8 digits.now }
    ensures { result ≡ written digits.now }
{
    match str::from_utf8(digits) {
        Ok(text) => text.parse::<u32>().ok(),
        Err(_) => unreachable!(),
    }
}

/// The number that a word writes in decimal, without a sign or a leading zero.
#[tactic(auto, unfolding(crate::specs::Numbers::number_of))]
pub(crate) fn number_of(word: &[u8]) -> Option<u32>
    requires { IsUtf8 word.now }
    ensures { result ≡ number_of word.now }
{
    if is_decimal(word) {
        written(word)
    } else {
        None
    }
}

/// The number of workers that a word writes.
#[tactic(auto, unfolding(crate::specs::Numbers::workers_of))]
pub(crate) fn workers_of(word: &[u8]) -> Option<u8>
    requires { IsUtf8 word.now }
    ensures { result ≡ workers_of word.now }
{
    let number = number_of(word)?;
    if number >= 1 && number <= 16 {
        Some(number as u8)
    } else {
        None
    }
}
