ghost use Rattle.std.specs.Prelude.{◌≡◌, ◌+◌, ◌≤◌, length, vec_len, vec_capacity};
ghost use Rattle.journal_text.specs.Appended.{Appended};

/// Appends bytes in room that is there.
pub(crate) fn put(out: &mut Vec<u8>, bytes: &[u8])
    requires { vec_len out.old + length bytes.now ≤ vec_capacity out.old }
    ensures text { Appended out.old out.new bytes.now }
    ensures len { vec_len out.new ≡ vec_len out.old + length bytes.now }
{
    out.extend_from_slice(bytes).unwrap();
}
