//! How numbers, values, names and columns are spelled.
ghost use Rattle.std.specs.Prelude.{◌≡◌, ◌≢◌, ◌<◌, ◌∷◌, ◌++◌, All, IfSome, MatchOption};
ghost use Rattle.dpc_lists.specs.Lists.{list_all};
ghost use Rattle.script_rules.specs.Spelling as spec;
ghost use Rattle.script_words.specs.Numbers.{u64_of, i64_of, below_zero, i64_by_digits};

/// Whether a byte is a digit.
fn is_digit(byte: u8) -> bool
    ensures { result ≡ spec.is_digit byte }
{
    byte.is_ascii_digit()
}

/// Whether each byte is a digit.
fn are_digits(word: &[u8]) -> bool
    ensures { result ≡ list_all spec.is_digit word.now }
{
    word.iter().all(|b| is_digit(*b))
}

/// Whether a word is a number of any size: digits without a leading zero.
pub fn is_numeral(word: &[u8]) -> bool
    ensures { result ≡ spec.is_numeral word.now }
{
    match word {
        [] => false,
        [first, ..] => are_digits(word) && (*first != b'0' || word.len() == 1),
    }
}

/// The number that a numeral is, where it is below 2^64.
pub fn number(word: &[u8]) -> Option<u64>
    ensures { result ≡ u64_of word.now }
{
    if word.is_empty() || (word[0] == b'0' && word.len() > 1) {
        return None;
    }
    let mut value: u64 = 0;
    for byte in word {
        if !is_digit(*byte) {
            return None;
        }
        value = value.checked_mul(10)?.checked_add(u64::from(*byte - b'0'))?;
    }
    Some(value)
}

/// Whether a word is a value of any size: a numeral, or a numeral but 0 behind a `-`.
pub fn is_value(word: &[u8]) -> bool
    ensures { result ≡ spec.is_value word.now }
{
    match word {
        [b'-', digits @ ..] => is_numeral(digits) && !matches!(digits, [b'0']),
        _ => is_numeral(word),
    }
}

/// The value that a word is, where it is one of i64.
pub fn value(word: &[u8]) -> Option<i64>
    ensures { result ≡ i64_of word.now }
{
    signed(word)
}

/// The value that a word is, by the number of its digits.
fn signed(word: &[u8]) -> Option<i64>
    ensures { result ≡ i64_by_digits word.now }
{
    match word {
        [b'-', digits @ ..] => negated(number(digits)?),
        _ => i64::try_from(number(word)?).ok(),
    }
}

/// The number below 0 of this size, where it is one of i64.
fn negated(size: u64) -> Option<i64>
    ensures { result ≡ below_zero size }
{
    if size == 0 {
        return None;
    }
    0i64.checked_sub_unsigned(size)
}

/// Whether a word looks like a value: it begins with a digit or `-`.
pub fn looks_like_value(word: &[u8]) -> bool
    ensures { result ≡ spec.looks_like_value word.now }
{
    match word {
        [first, ..] => is_digit(*first) || *first == b'-',
        [] => false,
    }
}

/// Whether a byte may stand in a name.
fn stands_in_name(byte: u8) -> bool
    ensures { result ≡ spec.may_stand_in_name byte }
{
    byte.is_ascii_lowercase() || byte.is_ascii_digit() || byte == b'_'
}

/// Whether each byte may stand in a name.
fn stand_in_name(word: &[u8]) -> bool
    ensures { result ≡ list_all spec.may_stand_in_name word.now }
{
    word.iter().all(|b| stands_in_name(*b))
}

/// Whether a word is a name: 1 to 16 lower-case letters, digits or underscores, the first a letter.
pub fn is_name(word: &[u8]) -> bool
    ensures { result ≡ spec.is_name word.now }
{
    match word {
        [first, rest @ ..] => {
            first.is_ascii_lowercase() && rest.len() < 16 && stand_in_name(rest)
        }
        [] => false,
    }
}

/// Whether a word is a node's name: a fragment's name, a dot and a replica's number.
pub fn is_node_name(word: &[u8]) -> bool
    ensures { result ≡ spec.is_node_name word.now }
{
    let (name, replica) = cut_at_dot(word);
    match replica {
        Some(replica) => is_name(name) && is_numeral(replica),
        None => false,
    }
}

/// What stands in front of the first dot, and what stands behind it where there is one.
fn cut_at_dot(word: &[u8]) -> (&[u8], Option<&[u8]>)
    ensures front { All (λ b. b ≢ 46) result.0.now }
    ensures parts { MatchOption result.1
        (word.now ≡ result.0.now)
        (λ behind. word.now ≡ result.0.now ++ 46 ∷ behind.now) }
{
    match word.iter().position(|b| *b == b'.') {
        Some(dot) => (&word[..dot], Some(&word[dot + 1..])),
        None => (word, None),
    }
}

/// The column that a word is, `c0` to `c7`.
pub fn column_of(word: &[u8]) -> Option<u64>
    ensures column { result ≡ spec.column_of word.now }
    ensures bound { IfSome result (λ c. c < 8) }
{
    match word {
        [b'c', digit @ b'0'..=b'7'] => Some(u64::from(*digit - b'0')),
        _ => None,
    }
}
