//! Big-endian numbers at the front of bytes, and the offset of bytes.

ghost use Rattle.std.specs.Prelude.{◌≡◌, option_map};
ghost use Rattle.std.specs.Int.{w16, w32, w64};
ghost use Rattle.class_text.specs.Reading.{number_at, place};

/// The offset of bytes that go on to the end.
pub fn offset_of(end: u32, bytes: &[u8]) -> u32
    ensures { result ≡ place end bytes.now }
{
    let left = bytes.len().min(end as usize);
    end - left as u32
}

/// The u2 at the front, and the bytes after it.
pub fn u2_in(bytes: &[u8]) -> Option<(u16, &[u8])>
    ensures { option_map (λ r. (r.0, r.1.now)) result ≡ number_at w16 bytes.now }
{
    if bytes.len() < 2 {
        return None;
    }
    let (number, rest) = bytes.split_at(2);
    Some((u16::from_be_bytes([number[0], number[1]]), rest))
}

/// The u4 at the front, and the bytes after it.
pub fn u4_in(bytes: &[u8]) -> Option<(u32, &[u8])>
    ensures { option_map (λ r. (r.0, r.1.now)) result ≡ number_at w32 bytes.now }
{
    if bytes.len() < 4 {
        return None;
    }
    let (n, rest) = bytes.split_at(4);
    Some((u32::from_be_bytes([n[0], n[1], n[2], n[3]]), rest))
}

/// The u8 at the front, and the bytes after it.
pub fn u8_in(bytes: &[u8]) -> Option<(u64, &[u8])>
    ensures { option_map (λ r. (r.0, r.1.now)) result ≡ number_at w64 bytes.now }
{
    if bytes.len() < 8 {
        return None;
    }
    let (n, rest) = bytes.split_at(8);
    let number = u64::from_be_bytes([n[0], n[1], n[2], n[3], n[4], n[5], n[6], n[7]]);
    Some((number, rest))
}
