//! Names of a callee's paths at the place of a call.
ghost use Rattle.std.specs.Prelude.{◌≡◌};
ghost use Rattle.std.specs.Option.{option_copied};
ghost use Rattle.paths.specs.Renamings.{under_call};

use crate::path::{Path, extend};
use std::marker::Model;

/// What some paths of a callee are called in the caller: `None` where the caller has no path for it.
#[derive(Drop)]
pub struct Renaming {
    pub pairs: Vec<(Path, Option<Path>)>,
}

impl Model for Renaming {
    ghost use Rattle.std.specs.Prelude.{List, Option};
    ghost use Rattle.paths.specs.Paths.{PathData};

    ghost Value = { List (PathData × Option PathData) };

    ghost view = { λ r. r.pairs.items };
}

/// The callee's path as the caller sees it: the receiver's path for `this`, an argument's path for a final
/// parameter, extended by the path's fields. `None` where that part has no path, where the root is past the
/// arguments, or where the result would have more than two fields.
pub fn under_call(path: &Path, receiver: Option<&Path>, args: &[Option<Path>]) -> Option<Path>
    ensures { result ≡ under_call (option_copied receiver.entry) args.now path.now }
{
    let passed = if path.root == 0 {
        receiver
    } else {
        args.get(path.root as usize - 1)?.as_ref()
    };
    extend(passed?, path.fields.as_slice())
}
