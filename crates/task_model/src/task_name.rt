//! The names of tasks.

ghost use Rattle.std.specs.Prelude.{◌≡◌};
ghost use Rattle.std.specs.List.{list_all};
ghost use Rattle.task_model.specs.TaskNames.{is_letter, may_follow, is_name_segment, name_segments, is_task_name};

/// The most bytes of a task's name.
pub const MAX_NAME_LEN: usize = 255;

/// The most bytes of one segment of a task's name.
pub const MAX_SEGMENT_LEN: usize = 64;

fn is_letter(byte: u8) -> bool
    ensures { result ≡ is_letter byte }
{
    matches!(byte, b'A'..=b'Z' | b'a'..=b'z')
}

fn may_follow(byte: u8) -> bool
    ensures { result ≡ may_follow byte }
{
    is_letter(byte) || matches!(byte, b'0'..=b'9' | b'-' | b'_')
}

fn all_may_follow(bytes: &[u8]) -> bool
    ensures { result ≡ list_all may_follow bytes.now }
{
    bytes.iter().all(|byte| may_follow(*byte))
}

/// Whether bytes are one segment of a task's name.
#[tactic(auto, unfolding(crate::specs::TaskNames::is_name_segment))]
pub fn is_name_segment(bytes: &[u8]) -> bool
    ensures { result ≡ is_name_segment bytes.now }
{
    match bytes.split_first() {
        None => false,
        Some((first, rest)) => {
            is_letter(*first) && all_may_follow(rest) && rest.len() < MAX_SEGMENT_LEN
        }
    }
}

fn are_name_segments(bytes: &[u8]) -> bool
    ensures { result ≡ list_all is_name_segment (name_segments bytes.now) }
{
    bytes.split(|byte| *byte == b'.').all(is_name_segment)
}

/// Whether bytes are the name of a task.
#[tactic(auto, unfolding(crate::specs::TaskNames::is_task_name))]
pub fn is_task_name(bytes: &[u8]) -> bool
    ensures { result ≡ is_task_name bytes.now }
{
    bytes.len() <= MAX_NAME_LEN && are_name_segments(bytes)
}
