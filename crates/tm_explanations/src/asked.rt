//! When an explanation is wanted.

ghost use Rattle.std.specs.Prelude.{◌≡◌, is_some};
ghost use Rattle.tm_explanations.specs.Wanted.{is_wanted};

/// An explanation is wanted. Only `ask` says so, and each call that explains asks for it.
#[derive(Clone, Copy)]
pub struct Asked(());

/// Whether an explanation is wanted, by the value of `TMX_EXPLAIN`, which is empty where there is none, and by whether
/// standard error is a terminal. By `1` it is wanted, by `0` it is not, and by all else at a terminal alone.
pub fn ask(value: &[u8], is_terminal: bool) -> Option<Asked>
    ensures { is_some result ≡ is_wanted value.now is_terminal }
{
    match value {
        b"1" => Some(Asked(())),
        b"0" => None,
        _ if is_terminal => Some(Asked(())),
        _ => None,
    }
}
