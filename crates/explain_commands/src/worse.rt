//! Which of two statuses is worse.

ghost use Rattle.std.specs.Prelude.{◌≡◌};
ghost use Rattle.explain_commands.specs.Worse.{badness, worse};

/// How bad the status of a file is.
fn badness(status: u8) -> u8
    ensures { result ≡ badness status }
{
    if status == 6 {
        4
    } else if status == 10 {
        3
    } else if status == 1 {
        2
    } else if status == 0 {
        0
    } else {
        1
    }
}

/// The worse of two statuses.
pub(crate) fn worse(status: u8, other: u8) -> u8
    ensures { result ≡ worse status other }
{
    if badness(status) < badness(other) {
        other
    } else {
        status
    }
}
