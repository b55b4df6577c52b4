//! The sets of a method's relevant paths that have its required ones.
ghost use Rattle.std.specs.Prelude.{◌≡◌, filter, IfOk};
ghost use Rattle.std.specs.List.{list_all};
ghost use Rattle.algebra.specs.HeldPaths.{has_path};
ghost use Rattle.refutation.specs.Passes.{subsets_of, with_and_without};

use effects::{copied, has_all, with_path};
use paths::Path;
use std::alloc::{AllocError as NoMemory, Global};
use std::marker::Model;

/// A set of held paths.
#[derive(Drop)]
pub(crate) struct HeldSet {
    pub(crate) paths: Vec<Path>,
}

impl Model for HeldSet {
    ghost use Rattle.std.specs.Prelude.{List};
    ghost use Rattle.paths.specs.Paths.{PathData};

    ghost Value = { List PathData };

    ghost view = { λ s. s.paths.items };
}

/// Each of these sets, followed by the same with one more path in front.
fn with_and_without(
    alloc: Global,
    path: &Path,
    sets: Vec<HeldSet>,
) -> Result<Vec<HeldSet>, NoMemory>
    ensures { IfOk result (λ doubled. doubled.items ≡ with_and_without path.now sets.items) }
{
    let mut doubled = Vec::new(alloc);
    for set in sets {
        let with = with_path(alloc, path, set.paths.as_slice())?;
        doubled.push(set)?;
        doubled.push(HeldSet { paths: with })?;
    }
    Ok(doubled)
}

/// The parts of a list, in ascending order of the number whose bit i stands for the i-th path.
fn all_parts(alloc: Global, paths: &[Path]) -> Result<Vec<HeldSet>, NoMemory>
    ensures { IfOk result (λ parts. parts.items ≡ subsets_of paths.now) }
{
    match paths.split_first() {
        Some((path, rest)) => {
            let parts = all_parts(alloc, rest)?;
            with_and_without(alloc, path, parts)
        }
        None => {
            let mut parts = Vec::new(alloc);
            parts.push(HeldSet {
                paths: Vec::new(alloc),
            })?;
            Ok(parts)
        }
    }
}

/// Those of these sets that have the required paths.
fn sets_with(alloc: Global, sets: &[HeldSet], required: &[Path]) -> Result<Vec<HeldSet>, NoMemory>
    ensures { IfOk result (λ kept. kept.items ≡ filter (λ held. list_all (has_path held) required.now) sets.now) }
{
    let mut kept = Vec::new(alloc);
    for set in sets {
        if has_all(set.paths.as_slice(), required) {
            let paths = copied(alloc, set.paths.as_slice())?;
            kept.push(HeldSet { paths })?;
        }
    }
    Ok(kept)
}

/// The parts of a list that have these required paths.
pub(crate) fn parts_with(
    alloc: Global,
    paths: &[Path],
    required: &[Path],
) -> Result<Vec<HeldSet>, NoMemory>
    ensures { IfOk result (λ parts. parts.items ≡ filter (λ held. list_all (has_path held) required.now) (subsets_of paths.now)) }
{
    let parts = all_parts(alloc, paths)?;
    if required.is_empty() {
        return Ok(parts);
    }
    sets_with(alloc, parts.as_slice(), required)
}
