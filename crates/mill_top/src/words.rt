//! The words of a command.

ghost use Rattle.std.specs.Prelude.{◌≡◌, slice_index};
ghost use Rattle.std.specs.Option.{option_copied};
ghost use Rattle.std.specs.List.{list_all};
ghost use Rattle.mill_top.specs.Words.{is_letter, is_name_byte, is_segment, is_explain, without_explain, shown, asked, explains};

use tree_value::Text;

fn is_letter(byte: u8) -> bool
    ensures { result ≡ is_letter byte }
{
    byte.is_ascii_alphabetic()
}

fn is_name_byte(byte: u8) -> bool
    ensures { result ≡ is_name_byte byte }
{
    is_letter(byte) || byte.is_ascii_digit() || byte == b'-' || byte == b'_'
}

fn begins_with_letter(bytes: &[u8]) -> bool
    ensures { result ≡ is_letter (slice_index bytes.now 0) }
{
    match bytes.first() {
        Some(first) => is_letter(*first),
        None => false,
    }
}

fn are_name_bytes(bytes: &[u8]) -> bool
    ensures { result ≡ list_all is_name_byte bytes.now }
{
    bytes.iter().all(|byte| is_name_byte(*byte))
}

fn is_segment(bytes: &[u8]) -> bool
    ensures { result ≡ is_segment bytes.now }
{
    begins_with_letter(bytes) && are_name_bytes(bytes) && bytes.len() <= 64
}

fn is_explain(word: &Text) -> bool
    ensures { result ≡ is_explain word.now }
{
    word.as_slice() == b"--explain".as_slice()
}

fn without_explain(words: &[Text]) -> &[Text]
    ensures { result.now ≡ without_explain words.now }
{
    match words {
        [word, rest @ ..] => { if is_explain(word) { rest } else { words } }
        [] => words,
    }
}

fn shown(words: &[Text]) -> Option<&Text>
    ensures { option_copied result ≡ shown words.now }
{
    match words {
        [verb, task] => {
            if verb.as_slice() == b"show".as_slice() && is_segment(task.as_slice()) {
                Some(task)
            } else {
                None
            }
        }
        _ => None,
    }
}

/// The task of the words `-j 1 show TASK` and `-j 1 --explain show TASK`.
pub fn asked(words: &[Text]) -> Option<&Text>
    ensures { option_copied result ≡ asked words.now }
{
    match words {
        [option, workers, rest @ ..] => {
            if option.as_slice() == b"-j".as_slice() && workers.as_slice() == b"1".as_slice() {
                shown(without_explain(rest))
            } else {
                None
            }
        }
        _ => None,
    }
}

/// Whether `--explain` stands behind `-j 1`.
pub fn explains(words: &[Text]) -> bool
    ensures { result ≡ explains words.now }
{
    match words {
        [_, _, word, ..] => is_explain(word),
        _ => false,
    }
}
